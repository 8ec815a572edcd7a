// The line call: any line after the first, answered from a board.
ghost use Rattle.std.specs.Prelude.{◌≡◌};
ghost use Rattle.lines.specs.Fields.{fields};
ghost use Rattle.board.specs.Plan.{plan};
ghost use Rattle.benchlines.specs.Tasks.{task_of};
ghost use Rattle.bench.specs.Answered.{Answered};

use crate::acting::act;
use crate::reply;
use benchlines::task::is_blank;
use board::board::Board;
use model::judge::SizingJudge;
use placement::rule::Placement;
use std::alloc::{AllocError, Global};

// The reply to a line. Only memory for the reply can be wanting, and the plan afterwards is the same then.
pub fn answer<J: SizingJudge, P: Placement>(
    heap: Global,
    board: &mut Board<J, P>,
    line: &[u8],
) -> Result<String, AllocError>
    ensures answered { Answered P.Rank.Rank.first (P.ranks board.old.rule) (J.Judge.accepts board.old.judge) (J.allows board.old.judge) (fields line.now) (plan board.old) (task_of line.now) (plan board.new) result }
    ensures judge { board.new.judge ≡ board.old.judge }
    ensures rule { board.new.rule ≡ board.old.rule }
{
    // At once: what other lines are answered with is passed on by value.
    if is_blank(line) {
        return Ok(String::new(heap));
    }
    told(heap, board, line)
}

// The reply to a line that may ask for something.
fn told<J: SizingJudge, P: Placement>(
    heap: Global,
    board: &mut Board<J, P>,
    line: &[u8],
) -> Result<String, AllocError>
    ensures answered { Answered P.Rank.Rank.first (P.ranks board.old.rule) (J.Judge.accepts board.old.judge) (J.allows board.old.judge) (fields line.now) (plan board.old) (task_of line.now) (plan board.new) result }
    ensures judge { board.new.judge ≡ board.old.judge }
    ensures rule { board.new.rule ≡ board.old.rule }
{
    match act(board, line) {
        Ok(answer) => answer.text(heap, board),
        Err(refusal) => reply::refused(heap, refusal.number(), refusal.place()),
    }
}
