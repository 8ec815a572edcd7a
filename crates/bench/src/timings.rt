// The rows of a line: three numbers each.
ghost use Rattle.std.specs.Prelude.{◌≡◌, ◌+◌, ◌*◌, ◌≤◌, ◌<◌};
ghost use Rattle.lines.specs.Fields.{fields};
ghost use Rattle.bench.specs.Timings.{timing_of, timing_at, timings_at, timing_read, timings_read, kept};

use crate::refusal::Refusal;
use benchlines::numbers::{check_numbers, number_at, read_numbers};
use model::fault::RequestFault;
use model::timing::Timing;
use processor::asking::UNUSED;
use processor::few::Few;

// So many rows from a place on, or the refusal of the first field that is no number, or else of the first limit that a row breaks.
pub fn checked_timings(line: &[u8], first: usize, count: usize) -> Result<Few<Timing, 40>, Refusal>
    requires { (count ≤ 40) × (first ≤ 1000) }
    ensures { kept result ≡ timings_read (fields line.now) first count }
{
    let mut timings = Few::new(UNUSED);
    // A row's place follows from its number: there is no slice of rows to go over.
    for i in 0..count {
        timings.push(checked_timing(line, row_place(first, i), count - (i + 1))?);
    }
    Ok(timings)
}

// Where a row begins, the first being row 0. A row has three fields.
fn row_place(first: usize, row: usize) -> usize
    requires { (first ≤ 1000) × (row < 40) }
    ensures { result ≡ first + 3 * row }
{
    first + row * 3
}

// The timing of a row with so many behind it. That it breaks a limit is told only where their fields are numbers too.
fn checked_timing(line: &[u8], at: usize, behind: usize) -> Result<Timing, Refusal>
    requires { (at ≤ 2000) × (behind ≤ 40) }
    ensures { result ≡ timing_read (fields line.now) at behind }
{
    let [budget, deadline, period] = read_numbers::<3>(line, at)?;
    match timing_of(budget, deadline, period) {
        Ok(timing) => Ok(timing),
        Err(fault) => {
            check_numbers(line, at + 3, at + 3 + 3 * behind)?;
            Err(Refusal::Request(fault))
        }
    }
}

// So many rows from a place on, or the first limit that one breaks. A field that is no number counts as 0.
pub fn read_timings(
    line: &[u8],
    first: usize,
    count: usize,
) -> Result<Few<Timing, 40>, RequestFault>
    requires { (count ≤ 40) × (first ≤ 1000) }
    ensures { kept result ≡ timings_at (fields line.now) first count }
{
    let mut timings = Few::new(UNUSED);
    for i in 0..count {
        timings.push(read_timing(line, first + 3 * i)?);
    }
    Ok(timings)
}

// The row whose three numbers begin at a place.
fn read_timing(line: &[u8], at: usize) -> Result<Timing, RequestFault>
    requires { at ≤ 2000 }
    ensures { result ≡ timing_at (fields line.now) at }
{
    timing_of(
        number_at(line, at),
        number_at(line, at + 1),
        number_at(line, at + 2),
    )
}

fn timing_of(budget: u32, deadline: u32, period: u32) -> Result<Timing, RequestFault>
    ensures { result ≡ timing_of budget deadline period }
{
    Timing::new(budget, deadline, period)
}
