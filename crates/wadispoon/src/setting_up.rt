// Checking the numbers that a board is set up with.
ghost use Rattle.wadispoon.specs.Sizes.{Sized, Started};

use crate::sizes::Sizes;
use board::board::Board;
use board::setup::SetupError;
use judges::demand::Demand;
use model::fault::SetupFault;
use std::alloc::{AllocError, Global};

pub const MOST_PROCESSORS: u32 = 8;

impl Sizes {
    // The processor count is checked first, then the steps, then the refinements, whatever the judge will be. Three numbers: checked, they are Sizes. The board checks the
    // count too, but after the judge is made.
    pub fn new(processors: u32, steps: u32, refinements: u32) -> Result<Sizes, SetupFault>
        ensures { Sized processors steps refinements result }
    {
        if processors < 1 || processors > MOST_PROCESSORS {
            return Err(SetupFault::Processors);
        }
        let demand = Demand::new(steps, refinements)?;
        Ok(Sizes {
            processors: processors as u8,
            demand,
        })
    }

    // An empty board of these processors. Only memory can be wanting: a count that was checked is never refused.
    pub fn board<J: Drop, P: Drop>(
        &self,
        heap: Global,
        judge: J,
        rule: P,
    ) -> Result<Board<J, P>, AllocError>
        ensures { Started self.now.processors judge rule result }
    {
        match Board::new(heap, self.processors as u32, judge, rule) {
            Ok(board) => Ok(board),
            Err(SetupError::Memory) => Err(AllocError),
            Err(SetupError::Refused(_)) => unreachable!(),
        }
    }
}
