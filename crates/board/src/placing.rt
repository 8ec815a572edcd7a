// Which processor takes a timing: placement chooses among those that have no part of the newcomer, a free row and the
// judge's yes. The judge need not say how long a tail may be.
ghost use Rattle.std.specs.Prelude.{◌≡◌};
ghost use Rattle.board.specs.Plan.{plan};
ghost use Rattle.processor.specs.Few.{held};
ghost use Rattle.board.specs.Place.{used, open_to, candidates, place};

use crate::board::Board;
use crate::cut::Cut;
use model::judge::Judge;
use model::timing::Timing;
use placement::candidate::Candidate;
use placement::first::choose;
use placement::rule::Placement;
use processor::few::Few;

// Whether a processor has a tail of the newcomer.
pub fn used(cuts: &[Cut], processor: u8) -> bool
    ensures { result ≡ used cuts.now processor }
{
    cuts.iter().any(|cut| cut.processor == processor)
}

impl<J: Judge, P> Board<J, P> {
    // The processors that can take the timing.
    fn candidates(&self, cuts: &[Cut], timing: Timing) -> Few<Candidate, 8>
        ensures { held result ≡ candidates (open_to (J.Judge.accepts self.now.judge) cuts.now timing) 1 (plan self.now) }
    {
        let mut found = Few::new(Candidate {
            processor: 0,
            spare: 0,
            rows: 0,
        });
        for (i, processor) in self.plan.processors.iter().enumerate() {
            let number = i as u8 + 1;
            if !used(cuts, number) && processor.takes(&self.judge, timing) {
                found.push(processor.as_candidate(number));
            }
        }
        found
    }
}

impl<J: Judge, P: Placement> Board<J, P> {
    // The processor that the timing goes to.
    pub fn place(&self, cuts: &[Cut], timing: Timing) -> Option<u8>
        ensures { result ≡ place P.Rank.Rank.first (P.Placement.ranks self.now.rule) (J.Judge.accepts self.now.judge) (plan self.now) cuts.now timing }
    {
        let open = self.candidates(cuts, timing);
        choose(&self.rule, open.as_slice()).map(|candidate| candidate.processor)
    }
}
