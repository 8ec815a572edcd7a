// Which reservations have rows here.
ghost use Rattle.std.specs.Prelude.{◌≡◌, ◌≤◌};
ghost use Rattle.processor.specs.Rows.{rows_of};
ghost use Rattle.processor.specs.Keys.{is_of, has_key, has_tail, owners};

use crate::rows::Processor;
use model::row::Row;

impl Processor {
    // Whether a row of this reservation stands here.
    pub fn holds(&self, key: u16) -> bool
        ensures { result ≡ has_key key (rows_of self.now) }
    {
        self.rows.iter().any(|row| is_of(row, key))
    }

    // Whether any tail stands here.
    pub fn has_tail(&self) -> bool
        ensures { result ≡ has_tail (rows_of self.now) }
    {
        self.rows.iter().any(|row| row.kind.is_tail())
    }

    // How many reservations have their whole or their head here.
    pub fn owners(&self) -> usize
        ensures value { result ≡ owners (rows_of self.now) }
        ensures bound { result ≤ 32 }
    {
        self.rows.iter().filter(|row| !row.kind.is_tail()).count()
    }
}

// Whether a row is of this reservation.
pub(crate) fn is_of(row: &Row, key: u16) -> bool
    ensures { result ≡ is_of key row.now }
{
    row.key == key
}
