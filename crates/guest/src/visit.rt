// The promise, with the guest's judge and the guest's rule.
ghost use Rattle.promise.specs.Promise.{Ran};
ghost use Rattle.guest.specs.Placed.{guest_meaning};

use crate::odd_first::OddFirst;
use crate::same_period::SamePeriod;
use board::setup::SetupError;
use promise::call::Call;
use promise::history::{Outcome, run};
use std::alloc::Global;

// Sets a board up and makes the calls: all that is promised of `run` holds.
pub fn visit(
    heap: Global,
    processors: u32,
    calls: &[Call],
) -> Result<Outcome<SamePeriod, OddFirst>, SetupError>
    ensures { Ran guest_meaning processors (record {}) (record {}) calls.now result }
{
    run(heap, processors, SamePeriod, OddFirst, calls)
}
