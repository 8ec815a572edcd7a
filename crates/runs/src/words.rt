// What the words of the promises mean: what they rule out, and what they leave free.
ghost use Rattle.runs.specs.Words.{LateIsLate, ReleasesFree, TiesFree, ExamplePieces};

// Late is the contrary of in time.
pub fn late_is_late() -> u8
    ensures { LateIsLate }
{
    0
}

// Any ticks may be released that are at least a period apart.
pub fn releases_free() -> u8
    ensures { ReleasesFree }
{
    0
}

// Of pieces that are due at the same tick any may be served.
pub fn ties_free() -> u8
    ensures { TiesFree }
{
    0
}

// The pieces of a split reservation, in numbers.
pub fn example_pieces() -> u8
    ensures { ExamplePieces }
{
    0
}
