// The demand curve of a list in numbers. Demand never passes the time, so nothing leaves 64 bits.
ghost use Rattle.std.specs.Prelude.{◌≡◌, ◌*◌, ◌≤◌, suc, map, length, take};
ghost use Rattle.std.specs.List.{list_all, range_with_len};
ghost use Rattle.model.specs.Scale.{scale};
ghost use Rattle.model.specs.Share.{share, shares};
ghost use Rattle.model.specs.Demand.{exact};
ghost use Rattle.judges.specs.Approximate.{point, approximate, approximates};
ghost use Rattle.judges.specs.Allowance.{slack};
ghost use Rattle.judges.specs.Demand.{fits};
ghost use Rattle.judges.specs.Table.{Slacks};

use model::share::SCALE;
use model::timing::Timing;
use std::array;

// The approximate demand of a list: exact for so many steps of each timing, and from there on a line.
#[derive(Drop)]
pub(crate) struct Curve<'a> {
    pub(crate) list: &'a [Timing],
    // The sum of the shares.
    pub(crate) sum: u64,
    // The slope of each timing's line is its share: an array for the most timings, since no call takes memory.
    slopes: [u32; 32],
    // Behind the array: one byte before it, and its padding, made each move of the array a call.
    pub(crate) steps: u8,
    ghost few: { length list.now ≤ 32 },
    ghost stepped: { steps ≤ 9 },
    ghost paired: { take (length list.now) slopes ≡ map (share scale) list.now },
    ghost summed: { sum ≡ shares scale list.now },
}

impl<'a> Curve<'a> {
    #[inline]
    pub(crate) fn new(list: &'a [Timing], steps: u8) -> Curve<'a>
        requires few { length list.now ≤ 32 }
        requires stepped { steps ≤ 9 }
        ensures list { result.list.now ≡ list.now }
        ensures steps { result.steps ≡ steps }
    {
        let mut slopes = [0; 32];
        let mut sum = 0;
        // By index: `from_fn` fills all 32 places, and through `iter_mut().zip(..)` no proof knows what is written.
        for (i, x) in list.iter().enumerate() {
            let share = x.share();
            slopes[i] = share as u32;
            sum += share;
        }
        Curve {
            list,
            sum,
            slopes,
            steps,
        }
    }

    // The demand within t ticks.
    #[tactic(auto, using(crate::specs::ApproximateLemmas::approximate_within))]
    pub(crate) fn demand(&self, t: u32) -> u64
        ensures { result ≡ approximates scale self.now.steps self.now.list.now t }
    {
        // A loop: of `zip(..).map(..).sum()` no proof was found.
        let mut sum = 0;
        for (x, slope) in self.list.iter().zip(&self.slopes[..self.list.len()]) {
            sum += approximate(x, *slope, self.steps, t);
        }
        sum
    }

    // Whether it fits t ticks.
    fn fits(&self, t: u32) -> bool
        ensures { result ≡ fits scale self.now.steps self.now.list.now t }
    {
        self.demand(t) <= SCALE * t as u64
    }

    // What it leaves unused of them.
    fn slack(&self, t: u32) -> u64
        ensures { result ≡ slack scale self.now.steps self.now.list.now t }
    {
        (SCALE * t as u64).saturating_sub(self.demand(t))
    }

    // Whether the demand fits at the check-points of each of these rows.
    pub(crate) fn fits_rows(&self, rows: &[Timing]) -> bool
        ensures { result ≡ list_all (λ x. list_all (λ k. fits scale self.now.steps self.now.list.now (point x k)) (range_with_len 0 (suc self.now.steps))) rows.now }
    {
        rows.iter().all(|x| self.fits_points(x))
    }

    // Whether it fits at those of one row, which has one more than there are retained steps.
    fn fits_points(&self, x: &Timing) -> bool
        ensures { result ≡ list_all (λ k. fits scale self.now.steps self.now.list.now (point x.now k)) (range_with_len 0 (suc self.now.steps)) }
    {
        (0..self.steps + 1).all(|k| self.fits(point(x, k)))
    }

    // The slack at each check-point of a timing.
    pub(crate) fn slacks(&self, x: &Timing) -> [u64; 10]
        ensures { Slacks scale self.now.steps self.now.list.now x.now (suc self.now.steps) result }
    {
        array::from_fn(|k| self.slack_at(x, k))
    }

    // That at check-point k, and 0 past the last.
    fn slack_at(&self, x: &Timing, k: usize) -> u64
        ensures { k ≤ self.now.steps → result ≡ slack scale self.now.steps self.now.list.now (point x.now k) }
    {
        if k <= self.steps as usize {
            self.slack(point(x, k as u8))
        } else {
            0
        }
    }
}

// The demand of one timing: exact before check-point `steps`, from there on the line.
fn approximate(x: &Timing, slope: u32, steps: u8, t: u32) -> u64
    requires paired { slope ≡ share scale x.now }
    requires stepped { steps ≤ 9 }
    ensures { result ≡ approximate scale steps x.now t }
{
    let last = point(x, steps);
    if t < last {
        SCALE * exact(x, t) as u64
    } else {
        SCALE * ((steps as u64 + 1) * x.budget as u64) + slope as u64 * (t - last) as u64
    }
}

// The budgets that fall due within t ticks.
fn exact(x: &Timing, t: u32) -> u32
    ensures { result ≡ exact x.now t }
{
    if t < x.deadline {
        0
    } else {
        x.budget * (1 + (t - x.deadline) / x.period)
    }
}

// Check-point k of a timing.
pub(crate) fn point(x: &Timing, k: u8) -> u32
    requires { k ≤ 9 }
    ensures value { result ≡ point x.now k }
    ensures bound { result ≤ 1000000 }
{
    k as u32 * x.period + x.deadline
}
