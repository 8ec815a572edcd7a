// Withdraw: a reservation's rows are removed, and split reservations are gathered where they then fit whole.
ghost use Rattle.std.specs.Prelude.{◌≡◌, ℕ, ◌<◌, List, map, length, vec_len, Result};
ghost use Rattle.model.specs.Row.{due};
ghost use Rattle.model.specs.declared.row.Row.{Row};
ghost use Rattle.model.specs.declared.fault.NamingFault.{NamingFault};
ghost use Rattle.board.specs.Plan.{plan, lists};
ghost use Rattle.processor.specs.Few.{held};
ghost use Rattle.processor.specs.Keys.{has_key};
ghost use Rattle.board.specs.Withdraw.{without, sum_over, gather, gather_from, withdrawal, key_or_zero, told};
ghost use Rattle.board.specs.Withdraws.{Withdraws};

use crate::board::Board;
use crate::gathered::Gathered;
use crate::plan::Plan;
use model::fault::NamingFault;
use model::judge::Judge;
use model::row::{Kind, Row};
use model::timing::Timing;
use processor::few::Few;

impl<J: Judge, P> Board<J, P> {
    // Takes a reservation off the board, then gathers on each processor that held a row of it, in rising number.
    pub fn withdraw(&mut self, key: u32) -> Result<Gathered, NamingFault>
        ensures answer { told result ≡ (withdrawal (J.accepts self.old.judge) key (plan self.old)).0 }
        ensures after { plan self.new ≡ (withdrawal (J.accepts self.old.judge) key (plan self.old)).1 }
        ensures rules { Withdraws (J.accepts self.old.judge) key (plan self.old) (told result) (plan self.new) }
        ensures only { (answer : Result (List ℕ) NamingFault) (after : List (List Row)) → Withdraws (J.accepts self.old.judge) key (plan self.old) answer after → (answer ≡ told result) × (after ≡ plan self.new) }
        ensures judge { self.new.judge ≡ self.old.judge }
        ensures rule { self.new.rule ≡ self.old.rule }
    {
        let Ok(key) = u16::try_from(key) else {
            return Err(NamingFault::Key);
        };
        if !self.plan.stands(key) {
            return Err(NamingFault::Key);
        }
        let visited = self.plan.holders(key);
        self.plan.remove(key);
        let keys = self.plan.gather(&self.judge, visited.as_slice());
        Ok(Gathered { keys })
    }
}

impl Plan {
    // Gathers on the processors that are to be visited. Each step sees the plan that the step before left.
    fn gather<J: Judge>(&mut self, judge: &J, visited: &[bool]) -> Few<u16, 8>
        requires { length visited.now ≡ vec_len self.old.processors }
        ensures keys { held result ≡ (gather_from (J.accepts judge.now) 0 visited.now (lists self.old)).0 }
        ensures after { lists self.new ≡ (gather_from (J.accepts judge.now) 0 visited.now (lists self.old)).1 }
    {
        let mut keys = Few::new(0);
        for (place, held) in visited.iter().enumerate() {
            let key = if *held {
                self.gather_at(judge, place)
            } else {
                None
            };
            keys.push(key.unwrap_or(0));
        }
        keys
    }

    // Gathers on one processor: its candidate, if the judge accepts it whole there in place of its rows.
    fn gather_at<J: Judge>(&mut self, judge: &J, place: usize) -> Option<u16>
        requires { place < vec_len self.old.processors }
        ensures key { key_or_zero result ≡ (gather (J.accepts judge.now) place (lists self.old)).0 }
        ensures after { lists self.new ≡ (gather (J.accepts judge.now) place (lists self.old)).1 }
        ensures count { vec_len self.new.processors ≡ vec_len self.old.processors }
    {
        let row = self.processors[place].candidate()?;
        // On a plan that this board's calls have made, the whole form keeps the limits.
        let timing = Timing::new(self.budget(row.key), self.due(row.key), row.timing.period).ok()?;
        if !self.processors[place].fits_instead(judge, row.key, timing) {
            return None;
        }
        self.remove(row.key);
        self.processors[place].add(Row {
            key: row.key,
            kind: Kind::Whole,
            timing,
        });
        Some(row.key)
    }

    // On which processors a row of this reservation stands.
    fn holders(&self, key: u16) -> Few<bool, 8>
        ensures { held result ≡ map (has_key key) (lists self.now) }
    {
        Few::collected(
            false,
            self.processors.iter().map(|processor| processor.holds(key)),
        )
    }

    // The budgets of a reservation's rows.
    fn budget(&self, key: u16) -> u32
        ensures { result ≡ sum_over (λ row. row.timing.budget) key (lists self.now) }
    {
        self.processors
            .iter()
            .map(|processor| processor.budget(key))
            .sum()
    }

    // What a reservation's rows add up to as its deadline.
    fn due(&self, key: u16) -> u32
        ensures { result ≡ sum_over due key (lists self.now) }
    {
        self.processors
            .iter()
            .map(|processor| processor.due(key))
            .sum()
    }

    // Takes a reservation's rows away on every processor.
    fn remove(&mut self, key: u16)
        ensures after { lists self.new ≡ without key (lists self.old) }
        ensures count { vec_len self.new.processors ≡ vec_len self.old.processors }
    {
        for processor in self.processors.iter_mut() {
            processor.remove(key);
        }
    }
}
