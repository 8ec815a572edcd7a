// Fewest rows: the processor with the fewest rows, and of those the one with the largest spare share.
ghost use Rattle.placement.specs.Ranks.{lighter};
ghost use Rattle.std.proofs.Common.{rules};

use crate::candidate::Candidate;
use crate::load::Load;
use crate::rank::Rank;
use crate::rule::Placement;
use std::cmp::Reverse;

#[derive(Clone, Copy)]
pub struct Fewest;

// Fewer rows come first, then the larger spare share.
impl Rank for Load {
    ghost first = { lighter };

    ghost chain = { Prim.search rules };

    ghost apart = { Prim.search rules };

    ghost total = { Prim.search rules };

    fn before(&self, other: &Load) -> bool {
        (self.rows, Reverse(self.spare)) < (other.rows, Reverse(other.spare))
    }
}

impl Placement for Fewest {
    type Rank = Load;

    ghost ranks = { λ _ processor spare rows. record { rows = rows; spare = spare } };

    fn rank(&self, candidate: &Candidate) -> Load {
        Load {
            rows: candidate.rows,
            spare: candidate.spare,
        }
    }
}
