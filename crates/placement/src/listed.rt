// The listed rule: the processor that stands first in an order given at set-up.
ghost use Rattle.std.specs.Prelude.{◌≡◌, nat_lt};
ghost use Rattle.placement.specs.Order.{listed};
ghost use Rattle.placement.specs.Ranks.{position};
ghost use Rattle.std.proofs.Common.{rules};

use crate::candidate::Candidate;
use crate::order::Order;
use crate::rank::Rank;
use crate::rule::Placement;
use model::fault::SetupFault;

#[derive(Clone, Copy)]
pub struct Listed {
    pub order: Order,
}

impl Listed {
    // The rule of this order, refused unless each of 1 to 8 stands in it once.
    pub fn new(processors: [u8; 8]) -> Result<Listed, SetupFault>
        ensures { result ≡ listed processors }
    {
        let order = Order { processors };
        if order.is_complete() {
            Ok(Listed { order })
        } else {
            Err(SetupFault::Order)
        }
    }
}

// The earlier place comes first. As for `i32`, and not once for every `Ord`, whose equal values need not be the same.
impl Rank for u8 {
    ghost first = { nat_lt };

    ghost chain = { Prim.search rules };

    ghost apart = { Prim.search rules };

    ghost total = { Prim.search rules };

    fn before(&self, other: &u8) -> bool {
        *self < *other
    }
}

impl Placement for Listed {
    type Rank = u8;

    ghost ranks = { λ rule processor spare rows. position processor rule.order.processors };

    fn rank(&self, candidate: &Candidate) -> u8 {
        self.order.position(candidate.processor)
    }
}
