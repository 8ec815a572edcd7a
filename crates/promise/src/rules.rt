// Admission is decided by its rules: they allow what is computed, and nothing else.
ghost use Rattle.promise.specs.Rules.{Allowed, NothingElse};

use model::judge::SizingJudge;
use placement::rule::Placement;

// For every plan of at least one processor and all numbers: the rules allow one answer and one plan afterwards, those that admission computes.
pub fn admission_by_its_rules<J: SizingJudge, P: Placement>(judge: &J, rule: &P) -> u8
    ensures allowed { Allowed P.Rank.Rank.first (P.Placement.ranks rule.now) (J.Judge.accepts judge.now) (J.SizingJudge.allows judge.now) }
    ensures nothing_else { NothingElse P.Rank.Rank.first (P.Placement.ranks rule.now) (J.Judge.accepts judge.now) (J.SizingJudge.allows judge.now) }
{
    0
}
