// The demand judge on a list of rows.
ghost use Rattle.model.specs.Scale.{scale};
ghost use Rattle.judges.specs.Allowance.{demand_allowance};
ghost use Rattle.judges.specs.Demand.{demand_yes};
ghost use Rattle.exports.specs.Judging.{asked_fault, Answered, Judged, Allowed};

use crate::numbers::Numbers;
use crate::question::{judge_for, read};
use crate::refusal::Refusal;
use crate::reply::Reply;
use model::judge::{Judge, SizingJudge};
use processor::asking::UNUSED;
use processor::few::Few;

// 1 for yes and 0 for no.
#[unsafe(no_mangle)]
pub extern "C" fn wadispoon_judge(steps: u32, rows: &[Numbers]) -> Reply
    ensures { Judged steps rows.now result }
{
    match judged(steps, rows) {
        Ok(yes) => Reply::of(yes as u64),
        Err(refusal) => Reply::refusal(refusal),
    }
}

// The longest tail of a period, at most the cap.
#[unsafe(no_mangle)]
pub extern "C" fn wadispoon_allowance(
    steps: u32,
    refinements: u32,
    rows: &[Numbers],
    period: u32,
    cap: u32,
) -> Reply
    ensures { Allowed steps refinements rows.now period cap result }
{
    match allowed(steps, refinements, rows, period, cap) {
        Ok(tail) => Reply::of(tail as u64),
        Err(refusal) => Reply::refusal(refusal),
    }
}

fn judged(steps: u32, rows: &[Numbers]) -> Result<bool, Refusal>
    ensures { Answered (asked_fault steps 0 rows.now) rows.now (λ l. demand_yes scale steps l) result }
{
    let judge = judge_for(steps, 0, rows)?;
    let mut list = Few::new(UNUSED);
    read(rows, &mut list)?;
    Ok(judge.judge(list.as_slice()))
}

fn allowed(
    steps: u32,
    refinements: u32,
    rows: &[Numbers],
    period: u32,
    cap: u32,
) -> Result<u32, Refusal>
    ensures { Answered (asked_fault steps refinements rows.now) rows.now (λ l. demand_allowance scale steps refinements l period cap) result }
{
    let judge = judge_for(steps, refinements, rows)?;
    let mut list = Few::new(UNUSED);
    read(rows, &mut list)?;
    Ok(judge.allowance(list.as_slice(), period, cap))
}
