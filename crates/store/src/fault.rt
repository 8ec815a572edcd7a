// Refusals of a buffer or an image, by their rule, with the place where the rule fails.
ghost use Rattle.std.specs.Prelude.{◌≡◌};
ghost use Rattle.std.proofs.Common.{rules};
ghost use Rattle.store.specs.Fault.{fault};
ghost use Rattle.store.specs.Refusal.{buffer_number};

use model::fault::Numbered;

// The rules of a buffer and of an image, in the order in which they are checked.
#[derive(Clone, Copy, PartialEq, Eq, Debug)]
pub enum BufferRule {
    // The buffer has room for the image that save writes.
    Room = 30,
    // The image has at least 4 bytes.
    Header = 31,
    // The form is 1.
    Form = 32,
    // The processor count is the board's.
    Processors = 33,
    // There are at most 256 records, and the length is that of the heads and records.
    Length = 34,
    // Each record is reached just once along the chains, and no chain has more than 32.
    Chains = 35,
    // A record has a kind, a key, a part and a timing.
    Record = 36,
    // The rows of a key are one whole, or one head and its tails.
    Key = 37,
    // There are at most 64 keys.
    Keys = 38,
    // The judge says yes to each processor's rows.
    Judge = 39,
}

// Which rule failed, and the chain, record, key or processor where it failed; 0 where no place is named, as a refusal is told.
#[derive(Clone, Copy, PartialEq, Eq, Debug)]
pub struct BufferFault {
    pub rule: BufferRule,
    pub place: u16,
}

impl Numbered for BufferRule {
    ghost numbered = { buffer_number };

    ghost distinct = { Prim.search rules };

    fn number(&self) -> u8 {
        *self as u8
    }
}

impl BufferRule {
    // The refusal by this rule, with no place named.
    pub(crate) fn anywhere(self) -> BufferFault
        ensures { result ≡ fault self 0 }
    {
        self.at(0)
    }

    // The refusal by this rule at a place, counted from 1.
    pub(crate) fn at(self, place: u16) -> BufferFault
        ensures { result ≡ fault self place }
    {
        BufferFault { rule: self, place }
    }
}
