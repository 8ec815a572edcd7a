// Questions that change nothing: a row of the plan, what the judge says of rows, and what it allows beside them.
ghost use Rattle.std.specs.Prelude.{◌≡◌, ◌≤◌};
ghost use Rattle.lines.specs.Fields.{fields};
ghost use Rattle.board.specs.Plan.{plan};
ghost use Rattle.bench.specs.Outcomes.{outcome_text};
ghost use Rattle.bench.specs.Answered.{look_text, judge_text, allow_text};

use crate::refusal::Refusal;
use crate::telling::Answer;
use crate::timings::checked_timings;
use benchlines::numbers::read_numbers;
use board::board::Board;
use model::judge::{Judge, SizingJudge};

pub(crate) fn look<J, P>(board: &Board<J, P>, line: &[u8]) -> Result<Answer, Refusal>
    ensures { outcome_text (plan board.now) result ≡ look_text (plan board.now) (fields line.now) }
{
    let [processor, position] = read_numbers::<2>(line, 1)?;
    Ok(Answer::Row(board.look(processor, position)?))
}

pub(crate) fn judge<J: Judge, P>(
    board: &Board<J, P>,
    line: &[u8],
    rows: usize,
) -> Result<Answer, Refusal>
    requires { rows ≤ 40 }
    ensures { outcome_text (plan board.now) result ≡ judge_text (J.accepts board.now.judge) (fields line.now) rows }
{
    let timings = checked_timings(line, 1, rows)?;
    Ok(Answer::Verdict(board.judge.judge(timings.as_slice())))
}

#[tactic(auto, using(crate::proofs::RowsRead::checked_on))]
pub(crate) fn allow<J: SizingJudge, P>(
    board: &Board<J, P>,
    line: &[u8],
    rows: usize,
) -> Result<Answer, Refusal>
    requires { rows ≤ 40 }
    ensures { outcome_text (plan board.now) result ≡ allow_text (J.allows board.now.judge) (fields line.now) rows }
{
    let [period, cap] = read_numbers::<2>(line, 1)?;
    let timings = checked_timings(line, 3, rows)?;
    Ok(Answer::Allowance(board.judge.allowance(timings.as_slice(), period, cap)))
}
