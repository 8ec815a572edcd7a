// The worked examples of what judges say, shown of the definitions themselves.
ghost use Rattle.judges.specs.Examples.{Examples};

// A theorem: the number says nothing.
pub fn examples_stand() -> u8
    ensures { Examples }
{
    0
}
