// A row of the plan: a timing, and whose it is.
ghost use Rattle.std.specs.Prelude.{◌≡◌, ◌≤◌};

use crate::timing::Timing;

// The whole of a reservation, its head, or one of its tails, numbered from 1 in serving order.
#[derive(Clone, Copy, PartialEq, Eq, Debug)]
pub enum Kind {
    Whole,
    Head,
    Tail(u8),
}

#[derive(Clone, Copy, PartialEq, Eq, Debug)]
pub struct Row {
    pub key: u16,
    pub kind: Kind,
    pub timing: Timing,
}
