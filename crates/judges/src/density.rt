// The density judge: yes where the densities sum to at most one.
ghost use Rattle.model.specs.Scale.{scale};
ghost use Rattle.judges.specs.Density.{density_yes, density_allowance};
ghost use Rattle.std.proofs.Common.{arith, rules};
ghost use Rattle.judges.specs.Judged.{density_sound, density_fewer, density_taken};

use model::judge::{Judge, SizingJudge};
use model::share::{alone, densities_fit};
use model::timing::Timing;

#[derive(Clone, Copy)]
pub struct Density;

impl Judge for Density {
    ghost accepts = { λ j l. density_yes scale l };

    ghost sound = { λ j l. density_sound scale l (omega arith) };

    ghost dense = { Prim.search rules };

    ghost fewer = { λ j m l w. density_fewer scale w };

    ghost few = { Prim.search rules };

    fn judge(&self, list: &[Timing]) -> bool {
        densities_fit(list)
    }
}

impl SizingJudge for Density {
    ghost allows = { λ j l t c. density_allowance l t c };

    ghost capped = { Prim.search rules };

    ghost periodic = { Prim.search rules };

    ghost limited = { Prim.search rules };

    ghost roomy = { Prim.search rules };

    ghost taken = { λ j l x c e _. density_taken scale l x c e };

    fn allowance(&self, list: &[Timing], period: u32, cap: u32) -> u32 {
        alone(list, period, cap)
    }
}
