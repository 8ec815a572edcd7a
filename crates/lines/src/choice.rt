// The judge and the placement rule that a first line names, and work that is done with them: one instance for each pair of words.
ghost use Rattle.std.specs.Prelude.{ℕ, Bool, List, ℤ};
ghost use Rattle.model.specs.declared.timing.Timing.{Timing};
ghost use Rattle.lines.specs.Choices.{accepts_of, allows_of, order, order_of};

use crate::setup::{JudgeWord, RuleWord};
use judges::demand::Demand;
use judges::density::Density;
use judges::either::Either;
use model::judge::SizingJudge;
use placement::best::Best;
use placement::fewest::Fewest;
use placement::rule::Placement;

// Work that is done with a judge and a rule, whichever they are.
pub trait Work {
    type Output;

    // What may come of it: by what the judge accepts and allows, and by which of two processors the rule puts first.
    ghost done: { Self → (List Timing → Bool) → (List Timing → ℕ → ℕ → ℕ) → (ℕ → ℤ → ℕ → ℕ → ℤ → ℕ → Bool) → Self.Output → Type 0 };

    fn run<J: SizingJudge + Drop, P: Placement + Drop>(self, judge: J, rule: P) -> Self::Output
        ensures { done self (J.Judge.accepts judge) (J.allows judge) (order P.Rank.Rank.first (P.ranks rule)) result };
}

// A judge by its word, with the demand judge of the settings.
#[derive(Clone, Copy)]
pub struct NamedJudge {
    pub word: JudgeWord,
    pub demand: Demand,
}

impl NamedJudge {
    // The work with this judge and a rule.
    pub fn run<P: Placement + Drop, W: Work>(self, rule: P, work: W) -> W::Output
        ensures { W.done work (accepts_of self) (allows_of self) (order P.Rank.Rank.first (P.ranks rule)) result }
    {
        match self.word {
            JudgeWord::Density => work.run(Density, rule),
            JudgeWord::Demand => work.run(self.demand, rule),
            JudgeWord::Either => {
                let either = Either {
                    first: Density,
                    second: self.demand,
                };
                work.run(either, rule)
            }
        }
    }

    // The same with the rule of a word.
    pub fn run_by<W: Work>(self, rule: RuleWord, work: W) -> W::Output
        ensures { W.done work (accepts_of self) (allows_of self) (order_of rule) result }
    {
        match rule {
            RuleWord::Best => self.run(Best, work),
            RuleWord::Fewest => self.run(Fewest, work),
        }
    }
}
