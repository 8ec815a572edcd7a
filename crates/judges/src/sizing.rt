// The demand judge as a sizing judge.
ghost use Rattle.model.specs.Scale.{scale};
ghost use Rattle.judges.specs.Allowance.{demand_allowance, StartsBelow};
ghost use Rattle.judges.specs.AllowanceLaws.{allowance_capped, allowance_periodic, allowance_asked, allowance_taken};
ghost use Rattle.std.proofs.Common.{arith};

use crate::allowance::Tail;
use crate::curve::Curve;
use crate::demand::Demand;
use model::judge::SizingJudge;
use model::limits::LONGEST_PERIOD;
use model::timing::Timing;

impl SizingJudge for Demand {
    ghost allows = { λ j l t c. demand_allowance scale j.steps j.refinements l t c };

    ghost capped = { λ j l t c. allowance_capped scale j.steps j.refinements l t c };

    ghost periodic = { λ j l t c. allowance_periodic scale j.steps j.refinements l t c };

    ghost limited = { λ j l t c h. (allowance_asked scale j.steps j.refinements l t c h).limit };

    ghost roomy = { λ j l t c h. (allowance_asked scale j.steps j.refinements l t c h).row };

    ghost taken = { λ j l x c budget deadline. allowance_taken scale j.steps j.refinements l x c (omega arith) budget deadline };

    fn allowance(&self, list: &[Timing], period: u32, cap: u32) -> u32 {
        if cap == 0 || period == 0 || period > LONGEST_PERIOD || list.len() > 31 {
            return 0;
        }
        let curve = Curve::new(list, self.steps);
        Tail { curve, period }.longest(cap, self.refinements)
    }
}

// Every refinement starts from a value that is at most its result.
#[tactic(auto, using(crate::specs::AllowanceLaws::starts_below))]
pub fn starts_below() -> u8
    ensures { StartsBelow }
{
    0
}
