// One more row, at the end.
ghost use Rattle.std.specs.Prelude.{◌≡◌, ◌<◌, [], ◌∷◌, ◌++◌, length};
ghost use Rattle.processor.specs.Rows.{rows_of};
ghost use Rattle.processor.specs.Taking.{free, added};

use crate::asking::MOST_ROWS;
use crate::rows::Processor;
use model::row::Row;

impl Processor {
    // Whether a row is free.
    pub(crate) fn has_room(&self) -> bool
        ensures { result ≡ free (rows_of self.now) }
    {
        self.rows.len() < MOST_ROWS
    }

    // Adds the row, if one is free: whether one was.
    pub fn add(&mut self, row: Row) -> bool
        ensures room { result ≡ free (rows_of self.old) }
        ensures after { rows_of self.new ≡ added (rows_of self.old) row }
        ensures end { length (rows_of self.old) < 32 → rows_of self.new ≡ rows_of self.old ++ (row ∷ []) }
    {
        if !self.has_room() {
            return false;
        }
        self.rows.push_reserved(row);
        true
    }
}
