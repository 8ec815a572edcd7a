// The numbers that a board is set up with.
ghost use Rattle.std.specs.Prelude.{◌≤◌};

use judges::demand::Demand;

#[derive(Clone, Copy)]
pub struct Sizes {
    pub processors: u8,
    // The demand judge of the steps and refinements, also where a board is set up with another judge.
    pub demand: Demand,
    ghost some: { 1 ≤ processors },
    ghost eight: { processors ≤ 8 },
}
