// The demand judge's yes: the shares fit a processor, and at every check-point the approximate demand fits the time.
ghost use Rattle.model.specs.Scale.{scale};
ghost use Rattle.judges.specs.Demand.{demand_yes};
ghost use Rattle.std.proofs.Common.{arith};
ghost use Rattle.judges.specs.Judged.{demand_sound, demand_dense, demand_fewer, yes_parts};

use crate::curve::Curve;
use crate::demand::Demand;
use model::judge::Judge;
use model::share::SCALE;
use model::timing::Timing;

impl Judge for Demand {
    ghost accepts = { λ j l. demand_yes scale j.steps l };

    ghost sound = { λ j l. demand_sound scale j.steps l (omega arith) };

    ghost dense = { λ j l. demand_dense scale j.steps l };

    ghost fewer = { λ j m l w. demand_fewer scale j.steps w };

    ghost few = { λ j l e. (yes_parts scale j.steps l e).0 };

    #[tactic(auto, using(crate::proofs::Tested::all_tested))]
    fn judge(&self, list: &[Timing]) -> bool {
        if list.len() > 32 {
            return false;
        }
        let curve = Curve::new(list, self.steps);
        curve.sum <= SCALE && curve.fits_rows(list)
    }
}
