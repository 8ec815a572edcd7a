// Setting a demand judge up.
ghost use Rattle.judges.specs.Setting.{SetUp};

use crate::demand::Demand;
use model::fault::SetupFault;

pub const MOST_STEPS: u32 = 9;

pub const MOST_REFINEMENTS: u32 = 5;

impl Demand {
    // A judge of these numbers, or the first of them that is too large.
    pub fn new(steps: u32, refinements: u32) -> Result<Demand, SetupFault>
        ensures { SetUp steps refinements result }
    {
        if steps > MOST_STEPS {
            return Err(SetupFault::Steps);
        }
        if refinements > MOST_REFINEMENTS {
            return Err(SetupFault::Refinements);
        }
        Ok(Demand {
            steps: steps as u8,
            refinements: refinements as u8,
        })
    }
}
