// One processor's rows, in the order in which they came. Room for all of them is taken at set-up.
ghost use Rattle.std.specs.Prelude.{◌≤◌, vec_len, vec_capacity};

use model::row::Row;

#[derive(Drop)]
pub struct Processor {
    pub rows: Vec<Row>,
    ghost room: { 32 ≤ vec_capacity rows },
    ghost few: { vec_len rows ≤ 32 },
}
