// Why a host's call is refused. Not Numbered: refusals of images may differ in their place alone.
ghost use Rattle.std.specs.Prelude.{◌≡◌};
ghost use Rattle.exports.specs.declared.refusal.Refusal.TheVariants.{Setup, Row, Image, Memory};
ghost use Rattle.exports.specs.Refusal.{refusal_number};

use model::fault::{LineFault, Numbered, RequestFault, SetupFault};
use std::alloc::AllocError;
use store::fault::BufferFault;

#[derive(Clone, Copy)]
pub(crate) enum Refusal {
    // The numbers of a judge or a board.
    Setup(SetupFault),
    // More rows than a judge ever says yes to.
    Rows,
    // The numbers of a row.
    Row(RequestFault),
    // A stored plan.
    Image(BufferFault),
    // There was no memory for a board.
    Memory,
}

// No rule's number: there was no memory for a board.
pub(crate) const WANT_OF_MEMORY: u8 = 255;

impl Refusal {
    pub(crate) fn number(&self) -> u8
        ensures { result ≡ refusal_number self.now }
    {
        match self {
            Refusal::Setup(fault) => fault.number(),
            Refusal::Rows => LineFault::Fields.number(),
            Refusal::Row(fault) => fault.number(),
            Refusal::Image(fault) => fault.rule.number(),
            Refusal::Memory => WANT_OF_MEMORY,
        }
    }
}

impl From<SetupFault> for Refusal {
    ghost from_gives = { λ f r. r ≡ Setup f };

    fn from(fault: SetupFault) -> Refusal {
        Refusal::Setup(fault)
    }
}

impl From<RequestFault> for Refusal {
    ghost from_gives = { λ f r. r ≡ Row f };

    fn from(fault: RequestFault) -> Refusal {
        Refusal::Row(fault)
    }
}

impl From<BufferFault> for Refusal {
    ghost from_gives = { λ f r. r ≡ Image f };

    fn from(fault: BufferFault) -> Refusal {
        Refusal::Image(fault)
    }
}

impl From<AllocError> for Refusal {
    ghost from_gives = { λ _ r. r ≡ Memory };

    fn from(_error: AllocError) -> Refusal {
        Refusal::Memory
    }
}
