// The judge's yes to every processor's rows.
ghost use Rattle.std.specs.Prelude.{◌≡◌, ◌+◌, if◌then◌else◌, Ok, Err};
ghost use Rattle.model.specs.Row.{timings};
ghost use Rattle.processor.specs.Few.{held};
ghost use Rattle.store.specs.declared.fault.BufferRule.{BufferRule};
ghost use Rattle.store.specs.Fault.{fault};
ghost use Rattle.store.specs.InPlace.{all_held};
ghost use Rattle.store.specs.Answers.{answered};
ghost use Rattle.store.specs.Judged.{judge_fault};

use crate::fault::{BufferFault, BufferRule as Rule};
use crate::lists::Plan;
use model::judge::Judge;
use model::row::Row;
use processor::asking::{Timings, UNUSED};
use processor::few::Few;

impl Plan {
    // Refuses the lowest processor whose rows get no.
    pub(crate) fn check_judge<J: Judge>(&self, judge: &J) -> Result<(), BufferFault>
        ensures { result ≡ answered (judge_fault (J.Judge.accepts judge.now) 1 (all_held self.now)) }
    {
        for (i, rows) in self.as_slice().iter().enumerate() {
            check_rows(judge, rows, i as u16 + 1)?;
        }
        Ok(())
    }
}

// Refuses the rows of one processor, counted from 1, if they get no.
fn check_rows<J: Judge>(judge: &J, rows: &Few<Row, 32>, processor: u16) -> Result<(), BufferFault>
    ensures { result ≡ (if J.Judge.accepts judge.now (timings (held rows.now)) then Ok tt else Err (fault BufferRule.Judge processor)) }
{
    if !says_yes(judge, rows) {
        return Err(Rule::Judge.at(processor));
    }
    Ok(())
}

fn says_yes<J: Judge>(judge: &J, rows: &Few<Row, 32>) -> bool
    ensures { result ≡ J.Judge.accepts judge.now (timings (held rows.now)) }
{
    let timings = rows.as_slice().iter().map(|row| row.timing);
    let list: Timings = Few::collected(UNUSED, timings);
    judge.judge(list.as_slice())
}
