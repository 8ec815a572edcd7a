// The limits that every timing keeps.
ghost use Rattle.model.specs.Limits.{Timed};

use crate::fault::RequestFault;
use crate::timing::Timing;

pub const LONGEST_PERIOD: u32 = 100_000;

impl Timing {
    // A timing of these numbers, or the first limit that they break. Three numbers: callers have them in structs of different forms.
    pub fn new(budget: u32, deadline: u32, period: u32) -> Result<Timing, RequestFault>
        ensures { Timed budget deadline period result }
    {
        if budget == 0 {
            return Err(RequestFault::Budget);
        }
        if budget > deadline {
            return Err(RequestFault::Deadline);
        }
        if deadline > period {
            return Err(RequestFault::Period);
        }
        if period > LONGEST_PERIOD {
            return Err(RequestFault::Limit);
        }
        Ok(Timing {
            budget,
            deadline,
            period,
        })
    }
}
