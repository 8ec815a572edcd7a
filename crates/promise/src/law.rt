// The promise as a law: it holds of every history from set-up on, whoever makes the calls.
ghost use Rattle.promise.specs.Promise.{meant, EveryHistory};
ghost use Rattle.promise.specs.Worth.{ShutOut};

use model::judge::SizingJudge;
use placement::rule::Placement;

pub fn every_history<J: SizingJudge, P: Placement>(judge: &J, rule: &P) -> u8
    ensures { EveryHistory (meant P.Rank.Rank.first (P.Placement.ranks rule.now) (J.Judge.accepts judge.now) (J.SizingJudge.allows judge.now)) }
{
    0
}

// What the promise shuts out: a board that refuses all, keeps none of what it admits, asks no judge, takes one processor for all, or cannot load what it saved.
pub fn worthless_boards<J: SizingJudge, P: Placement>(judge: &J, rule: &P) -> u8
    ensures { ShutOut (meant P.Rank.Rank.first (P.Placement.ranks rule.now) (J.Judge.accepts judge.now) (J.SizingJudge.allows judge.now)) }
{
    0
}
