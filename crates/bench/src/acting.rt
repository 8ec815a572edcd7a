// What a line does to the board, and what it is answered with.
ghost use Rattle.std.specs.Prelude.{◌≡◌, ◌≤◌, length};
ghost use Rattle.lines.specs.Fields.{fields};
ghost use Rattle.board.specs.Plan.{plan};
ghost use Rattle.benchlines.specs.Tasks.{task_of};
ghost use Rattle.bench.specs.Outcomes.{outcome_text};
ghost use Rattle.bench.specs.Answered.{AnsweredAs, LoadAnswered};

use crate::asking::{allow, judge, look};
use crate::refusal::Refusal;
use crate::telling::Answer;
use benchlines::hex::decode_any;
use benchlines::numbers::number_read;
use benchlines::task::Task;
use board::board::Board;
use lines::command::AdmitFields;
use lines::fields::field;
use model::fault::LineFault;
use model::judge::{Judge, SizingJudge};
use placement::rule::Placement;
use store::load::load;

// A refusal changes nothing.
pub(crate) fn act<J: SizingJudge, P: Placement>(
    board: &mut Board<J, P>,
    line: &[u8],
) -> Result<Answer, Refusal>
    ensures answered { AnsweredAs (λ text. outcome_text (plan board.new) result ≡ text) P.Rank.Rank.first (P.ranks board.old.rule) (J.Judge.accepts board.old.judge) (J.allows board.old.judge) (fields line.now) (plan board.old) (task_of line.now) (plan board.new) }
    ensures judge { board.new.judge ≡ board.old.judge }
    ensures rule { board.new.rule ≡ board.old.rule }
{
    match Task::read(line)? {
        Task::Blank => Ok(Answer::Nothing),
        Task::Admit => {
            let wanted = AdmitFields::of(line).numbers()?;
            Ok(Answer::Made(board.admit(wanted)?))
        }
        Task::Leave => {
            let key = number_read(line, 1)?;
            let gathered = board.withdraw(key)?;
            Ok(Answer::Left { key, gathered })
        }
        Task::Load => load_digits(board, field(line, 1)),
        Task::Save => Ok(Answer::Saved),
        Task::Look => look(board, line),
        Task::Judge(rows) => judge(board, line, rows),
        Task::Allow(rows) => allow(board, line, rows),
    }
}

// The plan of the image that the digits write, in the place of the board's.
fn load_digits<J: Judge, P>(board: &mut Board<J, P>, digits: &[u8]) -> Result<Answer, Refusal>
    requires { length digits.now ≤ 12000 }
    ensures loaded { LoadAnswered (λ text. outcome_text (plan board.new) result ≡ text) (J.accepts board.old.judge) digits.now (plan board.old) (plan board.new) }
    ensures judge { board.new.judge ≡ board.old.judge }
    ensures rule { board.new.rule ≡ board.old.rule }
{
    // In place: only memory for the text of a reply may be wanting.
    let mut bytes = [0u8; 6000];
    let length = decode_any(digits, &mut bytes).ok_or(LineFault::Number)?;
    load(board, &bytes[0..length])?;
    Ok(Answer::Loaded)
}
