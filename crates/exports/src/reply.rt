// What a host is told.
ghost use Rattle.std.specs.Prelude.{◌≡◌};
ghost use Rattle.exports.specs.Refusal.{refusal_number};

use crate::refusal::Refusal;

// The number of a refusal and the value 0, or 0 and the value: C has no enum with values.
#[repr(C)]
#[derive(Clone, Copy)]
pub struct Reply {
    pub refused: u32,
    pub value: u64,
}

impl Reply {
    pub(crate) fn of(value: u64) -> Reply
        ensures refused { result.refused ≡ 0 }
        ensures value { result.value ≡ value }
    {
        Reply { refused: 0, value }
    }

    pub(crate) fn refusal(refusal: Refusal) -> Reply
        ensures refused { result.refused ≡ refusal_number refusal }
        ensures value { result.value ≡ 0 }
    {
        Reply {
            refused: refusal.number() as u32,
            value: 0,
        }
    }
}
