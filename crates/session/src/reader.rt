// The lines of sessions: of one that goes on to the input's end, or of many, each ended by the line `----`.
ghost use Rattle.std.specs.Prelude.{◌≡◌, [], IfOk};
ghost use Rattle.lines.specs.Reading.{left, Told};
ghost use Rattle.lines.specs.Held.{held};

use lines::command::LONGEST_LINE;
use lines::fields::same;
use lines::line::Line;
use lines::reader::Reader as Lines;
use std::io;
use std::io::Read;

// One byte more than a line may have, so that one that is too long shows.
pub const KEPT: usize = LONGEST_LINE + 1;

#[derive(Drop)]
pub struct Reader<I> {
    lines: Lines<I>,
    // Whether the line `----` ends a session, as the end of the input does.
    marked: bool,
}

// What comes next in a session.
#[derive(Drop)]
pub enum Next {
    Line(Line<KEPT>),
    // The line `----`, as it was read.
    Mark(Line<KEPT>),
    // The end of the input.
    End,
}

// The same of a line that is lent.
#[derive(Clone, Copy)]
pub enum Found {
    Line,
    Mark,
    End,
}

impl<I: Read> Reader<I> {
    ghost use Rattle.session.specs.Reading.{NextLine, FoundLine, IsEnough, KeptEnough};

    pub fn new(input: I, marked: bool) -> Reader<I>
        ensures lines { left result.lines ≡ [] }
        ensures marked { result.marked ≡ marked }
    {
        Reader {
            lines: Lines::new(input),
            marked,
        }
    }

    // Reads the next line of the session, or what ends it. The last line need not end with a newline.
    #[tactic(auto, using(crate::proofs::Kept::line_enough))]
    pub fn next_line(&mut self) -> io::Result<Next>
        ensures line { NextLine self.old.marked (left self.new.lines) result }
        ensures enough { IfOk result KeptEnough }
        ensures marked { self.new.marked ≡ self.old.marked }
    {
        let mut line = Line::new();
        match self.read_line(&mut line)? {
            Found::Line => Ok(Next::Line(line)),
            Found::Mark => Ok(Next::Mark(line)),
            Found::End => Ok(Next::End),
        }
    }

    // The same into a line that is lent, whatever it held.
    #[tactic(auto, using(crate::proofs::Kept::line_enough))]
    pub fn read_line(&mut self, line: &mut Line<KEPT>) -> io::Result<Found>
        ensures line { FoundLine self.old.marked (left self.new.lines) (held line.new) result }
        ensures enough { IsEnough line.new }
        ensures marked { self.new.marked ≡ self.old.marked }
    {
        if !self.lines.read_line(line)? {
            return Ok(Found::End);
        }
        if self.marked && same(line.text(), b"----") {
            return Ok(Found::Mark);
        }
        Ok(Found::Line)
    }

    // Whether the input has another byte.
    pub fn more(&mut self) -> io::Result<bool>
        ensures told { Told (left self.new.lines) result }
        ensures marked { self.new.marked ≡ self.old.marked }
    {
        self.lines.more()
    }
}
