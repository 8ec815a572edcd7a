// The one choice, for every rule: the first rank wins, and equal ranks go to the earlier candidate.
ghost use Rattle.std.specs.Prelude.{◌≡◌, Some};
ghost use Rattle.placement.specs.declared.candidate.Candidate.{Candidate};
ghost use Rattle.placement.specs.First.{better, choice, Chosen, First};

use crate::candidate::Candidate;
use crate::rank::Rank;
use crate::rule::Placement;

pub fn choose<P: Placement>(rule: &P, candidates: &[Candidate]) -> Option<Candidate>
    ensures value { result ≡ choice P.Rank.Rank.first (P.ranks rule.now) candidates.now }
    ensures first { Chosen P.Rank.Rank.first (P.ranks rule.now) candidates.now result }
    ensures only { (c : Candidate) → First P.Rank.Rank.first (P.ranks rule.now) candidates.now c → result ≡ Some c }
{
    candidates
        .iter()
        .copied()
        .reduce(|earlier, later| better(rule, earlier, later))
}

// Of two candidates the one whose rank comes first, and of equals the earlier.
fn better<P: Placement>(rule: &P, earlier: Candidate, later: Candidate) -> Candidate
    ensures { result ≡ better P.Rank.Rank.first (P.ranks rule.now) earlier later }
{
    if rule.rank(&later).before(&rule.rank(&earlier)) {
        later
    } else {
        earlier
    }
}
