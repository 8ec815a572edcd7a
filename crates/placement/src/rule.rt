// A placement rule: how it ranks a processor, by its number, its spare share and its row count before the new row.
ghost use Rattle.std.specs.Prelude.{◌≡◌, ℕ, ℤ};
ghost use Rattle.placement.specs.First.{rank_of};

use crate::candidate::Candidate;
use crate::rank::Rank as Kind;

pub trait Placement {
    type Rank: Kind;

    // The rank of a processor by its number, its spare share and its row count: of a plan the promises know just these.
    ghost ranks: { Self → ℕ → ℤ → ℕ → Self.Rank };

    fn rank(&self, candidate: &Candidate) -> Self::Rank
        ensures { result ≡ rank_of (ranks self.now) candidate.now };
}
