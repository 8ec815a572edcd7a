// What a withdrawal asks of a processor, and takes from it: a reservation's rows, and which reservation is to be gathered.
ghost use Rattle.std.specs.Prelude.{◌≡◌, ℕ, ◌≤◌, [], ◌∷◌, ◌++◌, None};
ghost use Rattle.std.specs.Fn.{FnReturnsAt};
ghost use Rattle.model.specs.declared.row.Row.{Row};
ghost use Rattle.model.specs.Row.{timings, due};
ghost use Rattle.processor.specs.Rows.{rows_of};
ghost use Rattle.processor.specs.Few.{held};
ghost use Rattle.processor.specs.Gathering.{others, tail_among, heavier, heaviest, candidate, sum_on};

use crate::asking::{Timings, UNUSED};
use crate::few::Few;
use crate::keys::is_of;
use crate::rows::Processor;
use model::judge::Judge;
use model::row::{Kind, Row};
use model::timing::Timing;
use std::cmp::Reverse;

impl Processor {
    // What is to be gathered here: the reservation whose tail stands here, else that of the heaviest head.
    pub fn candidate(&self) -> Option<Row>
        ensures { result ≡ candidate (rows_of self.now) }
    {
        self.tail().or_else(|| self.heaviest_head())
    }

    fn tail(&self) -> Option<Row>
        ensures { result ≡ tail_among (rows_of self.now) }
    {
        self.rows.iter().copied().find(|row| row.kind.is_tail())
    }

    fn heaviest_head(&self) -> Option<Row>
        ensures { result ≡ heaviest None (rows_of self.now) }
    {
        let heads = self
            .rows
            .iter()
            .copied()
            .filter(|row| row.kind == Kind::Head);
        heads.reduce(|held, row| if heavier(&row, &held) { row } else { held })
    }

    // The budgets of a reservation's rows here.
    pub fn budget(&self, key: u16) -> u32
        ensures value { result ≡ sum_on (λ row. row.timing.budget) key (rows_of self.now) }
        ensures bound { result ≤ 3200000 }
    {
        self.sum_of(key, |row| row.timing.budget)
    }

    // What a reservation's rows here add to its deadline.
    pub fn due(&self, key: u16) -> u32
        ensures value { result ≡ sum_on due key (rows_of self.now) }
        ensures bound { result ≤ 3200000 }
    {
        self.sum_of(key, |row| row.due())
    }

    // The sum of a measure over a reservation's rows here.
    fn sum_of<F: Fn(&Row) -> u32>(&self, key: u16, measure: F) -> u32
        ghost of: { Row → ℕ }
        requires calls { F.IsAlwaysCallable measure }
        requires measures { (row : Row) (n : ℕ) → FnReturnsAt F.Fn measure row n → n ≡ of row }
        requires most { (row : Row) → of row ≤ 100000 }
        ensures value { result ≡ sum_on of key (rows_of self.now) }
        ensures bound { result ≤ 3200000 }
    {
        let own = self.rows.iter().filter(|row| is_of(row, key));
        own.map(|row| measure(row)).sum()
    }

    // Whether the judge accepts the rows here with this timing in place of a reservation's.
    pub fn fits_instead<J: Judge>(&self, judge: &J, key: u16, timing: Timing) -> bool
        ensures { result ≡ J.accepts judge.now (timings (others key (rows_of self.now)) ++ (timing ∷ [])) }
    {
        let list = self.asked_instead(key, timing);
        judge.judge(list.as_slice())
    }

    // The timings of the rows of others with this one at the end.
    fn asked_instead(&self, key: u16, timing: Timing) -> Timings
        ensures { held result ≡ timings (others key (rows_of self.now)) ++ (timing ∷ []) }
    {
        let others = self.rows.iter().filter(|row| !is_of(row, key));
        let mut list = Few::collected(UNUSED, others.map(|row| row.timing));
        list.push(timing);
        list
    }

    // Takes a reservation's rows away; the others keep their order.
    pub fn remove(&mut self, key: u16)
        ensures { rows_of self.new ≡ others key (rows_of self.old) }
    {
        self.rows.retain(|row| !is_of(row, key));
    }
}

// A larger share, or the same and a lower key.
fn heavier(row: &Row, held: &Row) -> bool
    ensures { result ≡ heavier row.now held.now }
{
    (Reverse(row.timing.share()), row.key) < (Reverse(held.timing.share()), held.key)
}
