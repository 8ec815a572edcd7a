// Best fit: the processor with the smallest spare share.
ghost use Rattle.std.specs.Prelude.{int_lt};
ghost use Rattle.std.proofs.Common.{rules};

use crate::candidate::Candidate;
use crate::rank::Rank;
use crate::rule::Placement;

#[derive(Clone, Copy)]
pub struct Best;

// The smaller number comes first. Not once for every `Ord`: its laws leave equal ranks two, and `total` wants them the same.
impl Rank for i32 {
    ghost first = { int_lt };

    ghost chain = { Prim.search rules };

    ghost apart = { Prim.search rules };

    ghost total = { Prim.search rules };

    fn before(&self, other: &i32) -> bool {
        *self < *other
    }
}

impl Placement for Best {
    type Rank = i32;

    ghost ranks = { λ _ processor spare rows. spare };

    fn rank(&self, candidate: &Candidate) -> i32 {
        candidate.spare
    }
}
