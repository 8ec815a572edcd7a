// The line call: any line after the first, answered from a board.
ghost use Rattle.std.specs.Prelude.{◌≡◌, ◌≤◌, [], map, length, IsOk};
ghost use Rattle.processor.specs.Rows.{rows_of};
ghost use Rattle.lines.specs.Commands.{asked};
ghost use Rattle.lines.specs.Replies.{text_of, Wrote};
ghost use Rattle.board.specs.Plan.{plan};
ghost use Rattle.board.specs.Admit.{told as told_rows};
ghost use Rattle.board.specs.Withdraw.{told as told_keys};
ghost use Rattle.session.specs.Answered.{admit_text, leave_text, reply_text, plan_after, Replied, unless_small};

use crate::reply::{add_gathered, add_rows};
use board::admission::Admission;
use board::board::Board;
use board::gathered::Gathered;
use lines::command::{Command, Request};
use lines::reply::{REPLY_ROOM, Reply, check_room};
use model::fault::{LineFault, NamingFault, Numbered, RequestFault};
use model::judge::SizingJudge;
use placement::rule::Placement;
use processor::rows::Processor;

// Answers a line: the reply is written from the buffer's start, and its length returned. A buffer of fewer than 256 bytes is refused.
pub fn answer<J: SizingJudge, P: Placement>(
    board: &mut Board<J, P>,
    line: &[u8],
    reply: &mut [u8],
) -> Result<usize, LineFault>
    ensures replied { Replied reply.old (reply_text P.Rank.Rank.first (P.ranks board.old.rule) (J.Judge.accepts board.old.judge) (J.allows board.old.judge) (plan board.old) (asked line.now)) reply.new result }
    ensures after { plan board.new ≡ unless_small (length reply.old) (plan board.old) (plan_after P.Rank.Rank.first (P.ranks board.old.rule) (J.Judge.accepts board.old.judge) (J.allows board.old.judge) (plan board.old) (asked line.now)) }
    ensures judge { board.new.judge ≡ board.old.judge }
    ensures rule { board.new.rule ≡ board.old.rule }
{
    check_room(reply)?;
    match ask(line) {
        Ok(Request::Blank) => Ok(0),
        asked => Ok(told(board, asked, reply)),
    }
}

// The reply to a line that is not blank. On its own, since a reply has to be filled with zeros first, which a blank line need not wait for.
fn told<J: SizingJudge, P: Placement>(
    board: &mut Board<J, P>,
    asked: Result<Request, LineFault>,
    reply: &mut [u8],
) -> usize
    requires { 256 ≤ length reply.old }
    ensures wrote { Wrote reply.old 0 (reply_text P.Rank.Rank.first (P.ranks board.old.rule) (J.Judge.accepts board.old.judge) (J.allows board.old.judge) (plan board.old) asked) reply.new result }
    ensures short { result ≤ 256 }
    ensures after { plan board.new ≡ plan_after P.Rank.Rank.first (P.ranks board.old.rule) (J.Judge.accepts board.old.judge) (J.allows board.old.judge) (plan board.old) asked }
    ensures judge { board.new.judge ≡ board.old.judge }
    ensures rule { board.new.rule ≡ board.old.rule }
{
    let mut said = Reply::new();
    act(board, asked, &mut said);
    said.put(reply, 0)
}

// Does what a line asks for, and says what came of it.
fn act<J: SizingJudge, P: Placement>(
    board: &mut Board<J, P>,
    asked: Result<Request, LineFault>,
    said: &mut Reply<REPLY_ROOM>,
)
    requires { text_of said.old ≡ [] }
    ensures text { text_of said.new ≡ reply_text P.Rank.Rank.first (P.ranks board.old.rule) (J.Judge.accepts board.old.judge) (J.allows board.old.judge) (plan board.old) asked }
    ensures short { length (text_of said.new) ≤ 256 }
    ensures after { plan board.new ≡ plan_after P.Rank.Rank.first (P.ranks board.old.rule) (J.Judge.accepts board.old.judge) (J.allows board.old.judge) (plan board.old) asked }
    ensures judge { board.new.judge ≡ board.old.judge }
    ensures rule { board.new.rule ≡ board.old.rule }
{
    match asked {
        Err(fault) => said.refused(fault.number()),
        Ok(Request::Blank) => {}
        Ok(Request::Admit(wanted)) => {
            let admitted = board.admit(wanted);
            say_admission(said, &admitted);
        }
        Ok(Request::Leave { key }) => {
            let withdrawn = board.withdraw(key);
            say_withdrawal(said, key, &withdrawn, board.plan.processors.as_slice());
        }
    }
}

// What a line asks for, or its own refusal.
fn ask(line: &[u8]) -> Result<Request, LineFault>
    ensures { result ≡ asked line.now }
{
    Command::read(line)?.request()
}

// The reply to an admission.
fn say_admission(said: &mut Reply<REPLY_ROOM>, answer: &Result<Admission, RequestFault>)
    requires { text_of said.old ≡ [] }
    ensures text { text_of said.new ≡ admit_text (told_rows answer.now) }
    ensures short { length (text_of said.new) ≤ 256 }
{
    match answer {
        Err(fault) => said.refused(fault.number()),
        Ok(admission) => add_rows(said, admission.rows()),
    }
}

// The reply to a withdrawal, with the processors as they are then.
fn say_withdrawal(
    said: &mut Reply<REPLY_ROOM>,
    key: u32,
    answer: &Result<Gathered, NamingFault>,
    processors: &[Processor],
)
    requires empty { text_of said.old ≡ [] }
    requires key { IsOk answer.now → key ≤ 65535 }
    ensures text { text_of said.new ≡ leave_text key (map rows_of processors.now) (told_keys answer.now) }
    ensures short { length (text_of said.new) ≤ 256 }
{
    match answer {
        Err(fault) => said.refused(fault.number()),
        Ok(gathered) => {
            said.gone(key as u16);
            add_gathered(said, gathered.keys.as_slice(), processors);
        }
    }
}
