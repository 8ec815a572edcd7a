// The same-period judge: yes by density, or where all timings share one period that is also every deadline, and the
// budgets together fill at most that period.
ghost use Rattle.std.specs.Prelude.{◌≡◌, ◌≤◌, length};
ghost use Rattle.model.specs.Scale.{scale};
ghost use Rattle.guest.specs.Together.{budgets, in_step, all_in_step, together, guest_yes, guest_allowance};
ghost use Rattle.std.proofs.Common.{arith, rules};
ghost use Rattle.guest.specs.Lawful.{guest_sound, guest_fewer, guest_taken};

use model::judge::{Judge, SizingJudge};
use model::share::{alone, densities_fit};
use model::timing::Timing;

#[derive(Clone, Copy)]
pub struct SamePeriod;

impl Judge for SamePeriod {
    ghost accepts = { λ j l. guest_yes scale l };

    ghost sound = { λ j l. guest_sound scale l (omega arith) };

    ghost dense = { Prim.search rules };

    ghost fewer = { λ j m l w. guest_fewer scale w };

    ghost few = { Prim.search rules };

    fn judge(&self, list: &[Timing]) -> bool {
        densities_fit(list) || (list.len() <= 32 && together(list))
    }
}

// A tail's density is a whole processor, and its deadline is below its period unless it takes up all of it: so nothing goes beside one.
impl SizingJudge for SamePeriod {
    ghost allows = { λ j l t c. guest_allowance l t c };

    ghost capped = { Prim.search rules };

    ghost periodic = { Prim.search rules };

    ghost limited = { Prim.search rules };

    ghost roomy = { Prim.search rules };

    ghost taken = { λ j l x c e _. guest_taken scale l x c e };

    fn allowance(&self, list: &[Timing], period: u32, cap: u32) -> u32 {
        alone(list, period, cap)
    }
}

// Whether all share the first one's period, and it is long enough.
fn together(list: &[Timing]) -> bool
    requires { length list.now ≤ 32 }
    ensures { result ≡ together list.now }
{
    match list {
        [] => true,
        [first, ..] => all_in_step(list, first.period) && budgets(list) <= first.period,
    }
}

fn all_in_step(list: &[Timing], period: u32) -> bool
    ensures { result ≡ all_in_step period list.now }
{
    list.iter().all(|x| in_step(x, period))
}

// Whether this is a timing's period, and its deadline too.
fn in_step(x: &Timing, period: u32) -> bool
    ensures { result ≡ in_step period x.now }
{
    x.period == period && x.deadline == period
}

// The sum of the budgets: at most 32 of the longest periods, so nothing wraps.
fn budgets(list: &[Timing]) -> u32
    requires { length list.now ≤ 32 }
    ensures { result ≡ budgets list.now }
{
    list.iter().map(|x| x.budget).sum()
}
