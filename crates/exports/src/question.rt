// Rows and numbers of a judge, read.
ghost use Rattle.std.specs.Prelude.{◌≡◌, ◌≤◌, [], length};
ghost use Rattle.processor.specs.Few.{held};
ghost use Rattle.exports.specs.Judging.{Read, Asked};

use crate::numbers::Numbers;
use crate::refusal::Refusal;
use judges::demand::Demand;
use model::fault::RequestFault;
use model::timing::Timing;
use processor::few::Few;

// The most rows that a judge says yes to.
pub const MOST_ROWS: usize = 32;

pub type Rows = Few<Timing, 32>;

// A judge that is asked about so many rows, or the first refusal: the judge's, or that of a list that is too long.
pub(crate) fn judge_for(steps: u32, refinements: u32, rows: &[Numbers]) -> Result<Demand, Refusal>
    ensures { Asked steps refinements rows.now result }
{
    let judge = Demand::new(steps, refinements)?;
    if rows.len() > MOST_ROWS {
        return Err(Refusal::Rows);
    }
    Ok(judge)
}

// Reads the rows into an empty list, or says the first refusal of one. The list is lent: handed back, it would be moved from call to call.
pub(crate) fn read(rows: &[Numbers], list: &mut Rows) -> Result<(), RequestFault>
    requires few { length rows.now ≤ 32 }
    requires empty { held list.old ≡ [] }
    ensures { Read rows.now (held list.new) result }
{
    for row in rows {
        list.push(Timing::new(row.budget, row.deadline, row.period)?);
    }
    Ok(())
}
