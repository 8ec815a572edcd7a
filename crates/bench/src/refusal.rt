// Why a line after the first is refused. Not Numbered: refusals of images may differ in their place alone.
ghost use Rattle.std.specs.Prelude.{◌≡◌};
ghost use Rattle.bench.specs.declared.refusal.Refusal.TheVariants.{Line, Request, Name, Stored};
ghost use Rattle.bench.specs.Outcomes.{refusal_number, refusal_place};

use model::fault::{LineFault, NamingFault, Numbered, RequestFault};
use store::fault::BufferFault;

#[derive(Clone, Copy)]
pub enum Refusal {
    Line(LineFault),
    Request(RequestFault),
    Name(NamingFault),
    Stored(BufferFault),
}

impl Refusal {
    pub(crate) fn number(&self) -> u8
        ensures { result ≡ refusal_number self.now }
    {
        match self {
            Refusal::Line(fault) => fault.number(),
            Refusal::Request(fault) => fault.number(),
            Refusal::Name(fault) => fault.number(),
            Refusal::Stored(fault) => fault.rule.number(),
        }
    }

    // Only an image has places; 0 elsewhere, as a refusal is told.
    pub(crate) fn place(&self) -> u16
        ensures { result ≡ refusal_place self.now }
    {
        match self {
            Refusal::Stored(fault) => fault.place,
            _ => 0,
        }
    }
}

impl From<LineFault> for Refusal {
    ghost from_gives = { λ fault e. e ≡ Line fault };

    fn from(fault: LineFault) -> Refusal {
        Refusal::Line(fault)
    }
}

impl From<RequestFault> for Refusal {
    ghost from_gives = { λ fault e. e ≡ Request fault };

    fn from(fault: RequestFault) -> Refusal {
        Refusal::Request(fault)
    }
}

impl From<NamingFault> for Refusal {
    ghost from_gives = { λ fault e. e ≡ Name fault };

    fn from(fault: NamingFault) -> Refusal {
        Refusal::Name(fault)
    }
}

impl From<BufferFault> for Refusal {
    ghost from_gives = { λ fault e. e ≡ Stored fault };

    fn from(fault: BufferFault) -> Refusal {
        Refusal::Stored(fault)
    }
}
