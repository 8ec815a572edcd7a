// That each condition of the promises is needed: without it, some run is late.
ghost use Rattle.runs.specs.Needed.{DemandNeeded, EarlyStartsInTime, HeadKeepsDeadline, IdleTick, LaterFirst, PartTwice, StartsClose, StrayRow, TailEarly, TailWithSlack};

// With a demand that does not fit.
pub fn demand_needed() -> u8
    ensures { DemandNeeded }
{
    0
}

// With starts one tick too close.
pub fn starts_close() -> u8
    ensures { StartsClose }
{
    0
}

// With one piece of a tail that starts, and is due, a tick early.
pub fn tail_early() -> u8
    ensures { TailEarly }
{
    0
}

// With one idle tick while a piece waits.
pub fn idle_tick() -> u8
    ensures { IdleTick }
{
    0
}

// With one tick for a piece that is due later than another.
pub fn later_first() -> u8
    ensures { LaterFirst }
{
    0
}

// An early start alone makes nothing late.
pub fn early_starts_in_time() -> u8
    ensures { EarlyStartsInTime }
{
    0
}

// With a head that keeps the reservation's deadline.
pub fn head_keeps_deadline() -> u8
    ensures { HeadKeepsDeadline }
{
    0
}

// With a tail whose deadline is longer than its budget.
pub fn tail_with_slack() -> u8
    ensures { TailWithSlack }
{
    0
}

// With a row that stands for no accepted reservation.
pub fn stray_row() -> u8
    ensures { StrayRow }
{
    0
}

// With a part that stands twice, two processors serve an instance at once.
pub fn part_twice() -> u8
    ensures { PartTwice }
{
    0
}
