// What is kept of a line is enough.
ghost use Rattle.lines.specs.Held.{CutIsEnough};

// A line is answered from the 81 bytes that are kept as from all of it.
pub fn cut_is_enough() -> u8
    ensures { CutIsEnough }
{
    0
}
