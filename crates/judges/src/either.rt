// The either judge: yes where one of two judges says yes, and the larger of their allowances.
ghost use Rattle.judges.specs.Either.{either_yes, either_allowance};
ghost use Rattle.std.proofs.Common.{rules};

use model::judge::{Judge, SizingJudge};
use model::timing::Timing;

#[derive(Clone, Copy)]
pub struct Either<A, B> {
    pub first: A,
    pub second: B,
}

impl<A: Judge, B: Judge> Judge for Either<A, B> {
    ghost accepts = { λ e l. either_yes (A.Judge.accepts e.first) (B.Judge.accepts e.second) l };

    ghost sound = { Prim.search rules };

    ghost dense = { Prim.search rules };

    ghost fewer = { Prim.search rules };

    ghost few = { Prim.search rules };

    fn judge(&self, list: &[Timing]) -> bool {
        self.first.judge(list) || self.second.judge(list)
    }
}

impl<A: SizingJudge, B: SizingJudge> SizingJudge for Either<A, B> {
    ghost allows = { λ e l t c. either_allowance (A.SizingJudge.allows e.first) (B.SizingJudge.allows e.second) l t c };

    ghost capped = { Prim.search rules };

    ghost periodic = { Prim.search rules };

    ghost limited = { Prim.search rules };

    ghost roomy = { Prim.search rules };

    ghost taken = { Prim.search rules };

    fn allowance(&self, list: &[Timing], period: u32, cap: u32) -> u32 {
        let first = self.first.allowance(list, period, cap);
        let second = self.second.allowance(list, period, cap);
        first.max(second)
    }
}
