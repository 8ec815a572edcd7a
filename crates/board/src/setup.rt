// Set-up: an empty board. No other call wants memory.
ghost use Rattle.std.specs.Prelude.{◌≡◌};
ghost use Rattle.board.specs.declared.setup.SetupError.TheVariants.{Memory};
ghost use Rattle.board.specs.Setup.{Set};

use crate::board::Board;
use crate::plan::Plan;
use model::fault::SetupFault;
use processor::rows::Processor;
use std::alloc::{AllocError, Global};

#[derive(Clone, Copy)]
pub enum SetupError {
    Refused(SetupFault),
    Memory,
}

impl From<AllocError> for SetupError {
    ghost from_gives = { λ _ r. r ≡ Memory };

    fn from(_error: AllocError) -> SetupError {
        SetupError::Memory
    }
}

impl<J: Drop, P: Drop> Board<J, P> {
    // A board of so many processors, without a row. Four arguments: a struct of them would be made for this call alone.
    pub fn new(heap: Global, processors: u32, judge: J, rule: P) -> Result<Board<J, P>, SetupError>
        ensures { Set processors judge rule result }
    {
        if processors < 1 || processors > 8 {
            return Err(SetupError::Refused(SetupFault::Processors));
        }
        let mut made = Vec::with_capacity(heap, 8)?;
        for _ in 0..processors {
            made.push_reserved(Processor {
                rows: Vec::with_capacity(heap, 32)?,
            });
        }
        Ok(Board {
            judge,
            rule,
            plan: Plan { processors: made },
        })
    }
}
