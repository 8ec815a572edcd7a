// Odd first: odd processors before even ones, and on each side the lower number.
ghost use Rattle.guest.specs.Sides.{side, sooner};
ghost use Rattle.std.proofs.Common.{rules};

use crate::side::Side;
use placement::candidate::Candidate;
use placement::rank::Rank;
use placement::rule::Placement;

#[derive(Clone, Copy)]
pub struct OddFirst;

// The odd side comes first, then the lower number.
impl Rank for Side {
    ghost first = { sooner };

    ghost chain = { Prim.search rules };

    ghost apart = { Prim.search rules };

    ghost total = { Prim.search rules };

    fn before(&self, other: &Side) -> bool {
        self < other
    }
}

impl Placement for OddFirst {
    type Rank = Side;

    ghost ranks = { λ _ processor spare rows. side processor };

    fn rank(&self, candidate: &Candidate) -> Side {
        let processor = candidate.processor;
        if processor % 2 == 1 {
            Side::Odd(processor)
        } else {
            Side::Even(processor)
        }
    }
}
