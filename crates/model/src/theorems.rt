// What follows from a judge's laws alone, each stated as the contract of a function.
ghost use Rattle.model.specs.Theorems.{SpareBounded};

use crate::judge::Judge;

// Rounding up carries the shares of a list that gets a yes at most 31 past the scale.
pub fn spare_bounded<J: Judge>(judge: &J) -> u8
    ensures { SpareBounded (J.Judge.accepts judge.now) }
{
    0
}
