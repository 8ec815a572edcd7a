// The longest tail that a processor takes, and the tail that is set: what a judge must say more than yes or no for.
ghost use Rattle.std.specs.Prelude.{◌≡◌, ◌-◌, ◌<◌, ◌≤◌};
ghost use Rattle.board.specs.Plan.{plan};
ghost use Rattle.processor.specs.Rows.{rows_of};
ghost use Rattle.processor.specs.Taking.{offers};
ghost use Rattle.board.specs.Tail.{unless_beside, found_offer, longer, tail_search, TailOf, RestOf, next_cut};

use crate::board::Board;
use crate::cut::Cut;
use crate::offer::Offer;
use crate::placing::used;
use model::judge::SizingJudge;
use model::timing::Timing;
use processor::rows::Processor;

impl<J: SizingJudge, P> Board<J, P> {
    // The next tail of a newcomer of which this head is left, and what is left then. Cuts and head stay apart: a whole is placed with no cuts.
    pub fn next_cut(&self, cuts: &[Cut], head: Timing) -> Option<(Cut, Timing)>
        ensures { result ≡ next_cut (J.SizingJudge.allows self.now.judge) (plan self.now) cuts.now head }
    {
        let offer = self.longest_offer(cuts, head.period, head.budget - 1)?;
        let cut = Cut {
            processor: offer.processor,
            timing: tail_of(head, offer.budget),
        };
        Some((cut, rest_of(head, offer.budget)))
    }

    // The longest tail that a processor takes; of equal ones the lower processor's.
    fn longest_offer(&self, cuts: &[Cut], period: u32, cap: u32) -> Option<Offer>
        ensures value { found_offer result ≡ tail_search (J.SizingJudge.allows self.now.judge) (plan self.now) cuts.now period cap }
        ensures bound { (found_offer result).1 ≤ cap }
    {
        let mut best = None;
        for (i, processor) in self.plan.processors.iter().enumerate() {
            let number = i as u8 + 1;
            let budget = offer(&self.judge, processor, used(cuts, number), period, cap);
            best = longer(number, budget, best);
        }
        best
    }
}

// What a processor offers: nothing beside another part of the newcomer.
fn offer<J: SizingJudge>(
    judge: &J,
    processor: &Processor,
    beside: bool,
    period: u32,
    cap: u32,
) -> u32
    ensures value { result ≡ unless_beside beside (offers (J.SizingJudge.allows judge.now) (rows_of processor.now) period cap) }
    ensures bound { result ≤ cap }
{
    if beside {
        return 0;
    }
    processor.offers(judge, period, cap)
}

// A longer tail takes the place of the longest so far.
fn longer(processor: u8, budget: u32, best: Option<Offer>) -> Option<Offer>
    ensures { found_offer result ≡ longer processor budget (found_offer best) }
{
    if budget > best.map_or(0, |offer| offer.budget) {
        Some(Offer { processor, budget })
    } else {
        best
    }
}

// A tail of this budget: it is due that long after it starts.
fn tail_of(head: Timing, budget: u32) -> Timing
    requires { (0 < budget) × (budget < head.budget) }
    ensures { TailOf head budget result }
{
    Timing {
        budget,
        deadline: budget,
        period: head.period,
    }
}

// What is left of a head before a tail of this budget.
fn rest_of(head: Timing, budget: u32) -> Timing
    requires { budget < head.budget }
    ensures { RestOf head budget result }
{
    Timing {
        budget: head.budget - budget,
        deadline: head.deadline - budget,
        period: head.period,
    }
}
