// What a board asks about one processor. Asking changes nothing.
ghost use Rattle.std.specs.Prelude.{◌≡◌, ◌*◌, ◌≤◌, [], ◌∷◌, ◌++◌};
ghost use Rattle.model.specs.Scale.{scale};
ghost use Rattle.model.specs.Share.{shares, spare};
ghost use Rattle.model.specs.Row.{timings};
ghost use Rattle.processor.specs.Rows.{rows_of};
ghost use Rattle.processor.specs.Few.{held};
ghost use Rattle.processor.specs.Taking.{takes, offers, as_candidate};

use crate::few::Few;
use crate::rows::Processor;
use model::judge::{Judge, SizingJudge};
use model::share::SCALE;
use model::timing::Timing;
use placement::candidate::Candidate;

pub const MOST_ROWS: usize = 32;

// A timing for the places of a list that are not in use.
pub const UNUSED: Timing = Timing {
    budget: 1,
    deadline: 1,
    period: 1,
};

// A list to put before a judge: a processor's rows and at most one more.
pub type Timings = Few<Timing, 33>;

impl Processor {
    // Whether it has a free row and the judge's yes to its rows with this timing at the end.
    pub fn takes<J: Judge>(&self, judge: &J, timing: Timing) -> bool
        ensures { result ≡ takes (J.Judge.accepts judge.now) (rows_of self.now) timing }
    {
        if !self.has_room() {
            return false;
        }
        let list = self.asked(timing);
        judge.judge(list.as_slice())
    }

    // The longest tail that it can take: none without a free row, or beside another tail.
    pub fn offers<J: SizingJudge>(&self, judge: &J, period: u32, cap: u32) -> u32
        ensures value { result ≡ offers (J.SizingJudge.allows judge.now) (rows_of self.now) period cap }
        ensures bound { result ≤ cap }
    {
        if !self.has_room() || self.has_tail() {
            return 0;
        }
        let list = self.timings();
        judge.allowance(list.as_slice(), period, cap)
    }

    // What is left of the processor: below zero where rounding up has carried the shares past the scale.
    pub fn spare(&self) -> i32
        ensures { result ≡ spare scale (timings (rows_of self.now)) }
    {
        SCALE as i32 - self.shares() as i32
    }

    // How a placement rule sees it, under this number.
    pub fn as_candidate(&self, number: u8) -> Candidate
        ensures { result ≡ as_candidate number (rows_of self.now) }
    {
        Candidate {
            processor: number,
            spare: self.spare(),
            rows: self.rows.len() as u8,
        }
    }

    // The sum of its rows' shares.
    fn shares(&self) -> u64
        ensures value { result ≡ shares scale (timings (rows_of self.now)) }
        ensures bound { result ≤ 32 * scale }
    {
        self.rows.iter().map(|row| row.timing.share()).sum()
    }

    // The timings of its rows with this one at the end.
    fn asked(&self, timing: Timing) -> Timings
        ensures { held result ≡ timings (rows_of self.now) ++ (timing ∷ []) }
    {
        let mut list = self.timings();
        list.push(timing);
        list
    }

    // The timings of its rows. A loop: a list that is collected is moved once more, and a board asks for one at each question.
    pub fn timings(&self) -> Timings
        ensures { held result ≡ timings (rows_of self.now) }
    {
        let mut list = Few::new(UNUSED);
        for row in self.rows.as_slice() {
            list.push(row.timing);
        }
        list
    }
}
