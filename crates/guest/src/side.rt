// A processor's number, and on which side of a board it is.
#[derive(Clone, Copy, PartialEq, Eq, PartialOrd, Ord)]
pub enum Side {
    Odd(u8),
    Even(u8),
}
