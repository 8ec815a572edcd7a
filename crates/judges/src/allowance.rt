// How long a tail the demand judge offers. Times stay within a million ticks and tails within a period, so that a slack is at most
// SCALE * 10^6, and no product reaches 3 * 10^17: nothing leaves 64 bits.
ghost use Rattle.std.specs.Prelude.{◌≡◌, suc, ◌*◌, ◌/◌, ◌<◌, ◌≤◌, min, length};
ghost use Rattle.model.specs.Scale.{scale};
ghost use Rattle.judges.specs.Allowance.{spare_budget, before_deadline, before_deadlines, within_steps, point_room, within_points, within_rows, fixed_room, refinements};
ghost use Rattle.judges.specs.Table.{Slacks, Table};

use crate::curve::{Curve, point};
use model::share::SCALE;
use model::timing::Timing;

// How long a tail may be: no longer than any period.
#[derive(Clone, Copy)]
struct Room {
    ticks: u32,
    ghost short: { ticks ≤ 100000 },
}

impl Room {
    // The smaller of this and what so much comes to, shared by so many: where it is this, a product tells so without a division.
    #[tactic(auto, using(crate::proofs::AllowanceWalk::quotients))]
    fn least(self, free: u64, by: u64) -> Room
        requires { (0 < by) × (by ≤ 2000000) }
        ensures { result.ticks ≡ min self.ticks (free / (scale * by)) }
    {
        let each = SCALE * by;
        let ticks = if self.ticks as u64 * each <= free {
            self.ticks
        } else {
            (free / each) as u32
        };
        Room { ticks }
    }
}

// A tail of some period that is to be sized beside a list.
#[derive(Drop)]
pub(crate) struct Tail<'a> {
    pub(crate) curve: Curve<'a>,
    pub(crate) period: u32,
    ghost few: { length curve.list.now ≤ 31 },
    ghost some: { 0 < period },
    ghost short: { period ≤ 100000 },
}

impl Tail<'_> {
    // The longest tail that is offered, at most `cap`: worked out from 0, and again so many times from the result before.
    pub(crate) fn longest(&self, cap: u32, again: u8) -> u32
        ensures { result ≡ refinements scale self.now.curve.steps self.now.curve.list.now self.now.period cap again }
    {
        let fixed = self.fixed_room(cap);
        let slacks = self.slacks();
        let mut room = self.refined(&slacks, fixed, 0);
        for _ in 0..again {
            room = self.refined(&slacks, fixed, room.ticks);
        }
        room.ticks
    }

    // What no start value changes.
    #[tactic(auto, using(crate::specs::AllowanceBounds::spare_le, crate::specs::AllowanceBounds::deadlines_le))]
    fn fixed_room(&self, cap: u32) -> Room
        ensures { result.ticks ≡ fixed_room scale self.now.curve.steps self.now.curve.list.now self.now.period cap }
    {
        let spare = self.spare();
        let short = before_deadlines(self.curve.list, cap.min(spare));
        self.within_steps(spare, Room { ticks: short })
    }

    // What the spare share leaves in a period.
    fn spare(&self) -> u32
        ensures { result ≡ spare_budget scale self.now.curve.list.now self.now.period }
    {
        (SCALE.saturating_sub(self.curve.sum) * self.period as u64 / SCALE) as u32
    }

    // What is left at the ends of the tail's first periods, shared by its instances so far, and at most `room`.
    fn within_steps(&self, spare: u32, mut room: Room) -> Room
        requires { spare ≡ spare_budget scale self.now.curve.list.now self.now.period }
        ensures { result.ticks ≡ within_steps scale self.now.curve.steps self.now.curve.list.now self.now.period self.now.curve.steps room.ticks }
    {
        for turns in 1..self.curve.steps as u32 + 1 {
            let end = turns * self.period;
            let time = SCALE * end as u64;
            let free = time.saturating_sub(self.curve.demand(end + spare));
            room = room.least(free, turns as u64);
        }
        room
    }

    // The longest tail that every check-point of every timing bears, if it is at least `start`, and at most `fixed`.
    fn refined(&self, slacks: &[[u64; 10]; 31], fixed: Room, start: u32) -> Room
        requires { Table scale self.now.curve.steps self.now.curve.list.now (length self.now.curve.list.now) slacks.now }
        ensures { result.ticks ≡ within_rows scale self.now.curve.steps self.now.curve.list.now self.now.period start self.now.curve.list.now fixed.ticks }
    {
        let mut room = fixed;
        for (x, row) in self.curve.list.iter().zip(slacks) {
            room = self.within_points(x, row, room, start);
        }
        room
    }

    // The longest tail that every check-point of one timing bears, if it is at least `start`, and at most `room`.
    fn within_points(&self, x: &Timing, row: &[u64; 10], mut room: Room, start: u32) -> Room
        requires { Slacks scale self.now.curve.steps self.now.curve.list.now x.now (suc self.now.curve.steps) row.now }
        ensures { result.ticks ≡ within_points scale self.now.curve.steps self.now.curve.list.now self.now.period start x.now (suc self.now.curve.steps) room.ticks }
    {
        for (k, free) in row[..=self.curve.steps as usize].iter().enumerate() {
            room = self.point_room(point(x, k as u8), *free, room, start);
        }
        room
    }

    // The longest tail that check-point p bears, where so much is free, if it is at least `start`, and at most `room`.
    fn point_room(&self, p: u32, free: u64, room: Room, start: u32) -> Room
        requires soon { p ≤ 1000000 }
        requires within { free ≤ scale * 1000000 }
        ensures { result.ticks ≡ min room.ticks (point_room scale self.now.curve.steps self.now.period start p free) }
    {
        let steps = self.curve.steps as u64;
        let period = self.period as u64;
        let line = steps * period + start as u64;
        let p = p as u64;
        if line <= p {
            let past = p - line;
            let rest = (free * period).saturating_sub((period - 1) * past);
            room.least(rest, (steps + 1) * period + past)
        } else {
            room.least(free, p.saturating_sub(start as u64) / period + 1)
        }
    }

    // The slack at each check-point of each timing: no refinement works it out again.
    #[tactic(auto, using(crate::proofs::AllowanceTable::row_filled))]
    fn slacks(&self) -> [[u64; 10]; 31]
        ensures { Table scale self.now.curve.steps self.now.curve.list.now (length self.now.curve.list.now) result }
    {
        let mut rows = [[0; 10]; 31];
        // By index: `from_fn` needs a function more, with a row for places past the list, and through `iter_mut().zip(..)` no proof knows what is written.
        for (i, x) in self.curve.list.iter().enumerate() {
            rows[i] = self.curve.slacks(x);
        }
        rows
    }
}

// The longest tail that ends before every deadline, and at most `room`.
#[tactic(auto, using(crate::proofs::AllowanceWalk::deadlines_folded))]
fn before_deadlines(list: &[Timing], room: u32) -> u32
    ensures { result ≡ before_deadlines list.now room }
{
    list.iter().map(before_deadline).fold(room, u32::min)
}

// The longest tail that ends before the deadline of x.
fn before_deadline(x: &Timing) -> u32
    ensures { result ≡ before_deadline x.now }
{
    x.deadline - 1
}
