// Examples of lines and replies, shown of the definitions.
ghost use Rattle.lines.specs.Examples.{Shown};

// The examples hold.
pub fn examples_stand() -> u8
    ensures { Shown }
{
    0
}
