// The first line: what board it asks for.
ghost use Rattle.std.specs.Prelude.{◌≡◌, ◌≤◌, length};
ghost use Rattle.lines.specs.Setups.{setup_of};
ghost use Rattle.lines.specs.Replies.{text_of, Wrote};
ghost use Rattle.session.specs.Answered.{Replied};
ghost use Rattle.session.specs.Opened.{first_text, Read, Opened, Comes, said, ended};

use lines::command::is_blank;
use lines::reply::{REPLY_ROOM, Reply, check_room};
use lines::setup::{JudgeWord, OpeningFault, RuleWord, Setup};
use model::fault::{LineFault, Numbered};
use wadispoon::sizes::Sizes;

// The board that a first line asks for.
#[derive(Clone, Copy)]
pub struct Start {
    pub sizes: Sizes,
    pub judge: JudgeWord,
    pub rule: RuleWord,
}

// What comes of a first line.
#[derive(Clone, Copy)]
pub enum First {
    // A blank line: the first line is still to come.
    Wait,
    // The line was refused.
    Refused(OpeningFault),
    // A board is to be set up.
    Board(Start),
}

impl First {
    pub fn read(line: &[u8]) -> First
        ensures { Comes line.now result }
    {
        if is_blank(line) {
            return First::Wait;
        }
        match Start::read(line) {
            Err(fault) => First::Refused(fault),
            Ok(start) => First::Board(start),
        }
    }

    // The reply to the line.
    pub fn reply(&self) -> Reply<REPLY_ROOM>
        ensures { text_of result ≡ said self.now }
    {
        let mut reply = Reply::new();
        match self {
            First::Wait => {}
            First::Refused(fault) => reply.refused(fault.number()),
            First::Board(start) => reply.board(start.sizes.processors),
        }
        reply
    }

    // Writes the reply from the buffer's start, and answers its length.
    fn put(&self, out: &mut [u8]) -> usize
        requires { 256 ≤ length out.old }
        ensures wrote { Wrote out.old 0 (said self.now) out.new result }
        ensures short { result ≤ 256 }
    {
        self.reply().put(out, 0)
    }
}

impl Start {
    // The settings of a line that is not blank.
    fn read(line: &[u8]) -> Result<Start, OpeningFault>
        ensures { Read (setup_of line.now) result }
    {
        let setup = Setup::read(line)?;
        let sizes = Sizes::new(setup.processors, setup.steps, setup.refinements)?;
        Ok(Start {
            sizes,
            judge: setup.judge,
            rule: setup.rule,
        })
    }
}

// Answers a first line: the reply is written from the buffer's start, and its length returned. A buffer of fewer than 256 bytes is refused.
#[tactic(auto, using(crate::proofs::Openings::said_first))]
pub fn first_line(line: &[u8], reply: &mut [u8]) -> Result<(First, usize), LineFault>
    ensures replied { Replied reply.old (first_text line.now) reply.new (ended result) }
    ensures opened { Opened line.now result }
{
    check_room(reply)?;
    let first = First::read(line);
    if let First::Wait = first {
        return Ok((first, 0));
    }
    let end = first.put(reply);
    Ok((first, end))
}
