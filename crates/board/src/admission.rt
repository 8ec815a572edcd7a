// The answer to an admission: the rows that were made, head first, then the tails by part.
ghost use Rattle.std.specs.Prelude.{◌≡◌, ◌≤◌};

use model::row::Row;
use processor::few::Few;

// A row and the processor that it stands on, counted from 1.
#[derive(Clone, Copy, PartialEq, Eq, Debug)]
pub struct Placed {
    pub processor: u8,
    pub row: Row,
}

#[derive(Drop)]
pub struct Admission {
    pub placed: Few<Placed, 8>,
    ghost some: { 1 ≤ placed.len },
}
