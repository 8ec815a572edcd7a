// A session over an input: the first line sets a board up, which is kept until the input ends.
use crate::answer::answer;
use crate::reply;
use benchlines::opening::{Opening, Rule, read_opening};
use benchlines::task::{LONGEST_LINE, is_blank};
use board::board::Board;
use board::setup::SetupError;
use lines::choice::{NamedJudge, Work};
use lines::line::Line;
use lines::reader::Reader;
use model::fault::Numbered;
use model::judge::SizingJudge;
use placement::rule::Placement;
use std::alloc::AllocError;
use std::io;
use std::io::Read;

// One byte more than a line may have, so that one that is too long shows.
const KEPT: usize = LONGEST_LINE + 1;

// One session over an input.
pub fn serve<I: Read + Drop>(rt: &HostRuntime, input: I) -> io::Result<()> {
    let mut reader = Reader::new(input);
    run(rt, &mut reader)
}

// Waits for the first line, and keeps the board that it asks for. What follows a refused first line is not read.
pub fn run<I: Read>(rt: &HostRuntime, reader: &mut Reader<I>) -> io::Result<()> {
    // One for all lines: it is long, and a new one would be filled with zeros.
    let mut line = Line::<KEPT>::new();
    // An input of unknown bytes has no measure, so the loop is counted.
    for _ in 0..u64::MAX {
        if !reader.read_line(&mut line)? {
            break;
        }
        if is_blank(line.text()) {
            continue;
        }
        return match read_opening(line.text()) {
            Err(fault) => refuse(rt, &fault),
            Ok(opening) => keep(rt, reader, &mut line, opening),
        };
    }
    Ok(())
}

fn refuse<F: Numbered>(rt: &HostRuntime, fault: &F) -> io::Result<()> {
    let text = reply::refused(rt.alloc(), fault.number(), 0)?;
    rt.write_all(text.as_bytes())
}

fn keep<I: Read>(
    rt: &HostRuntime,
    reader: &mut Reader<I>,
    line: &mut Line<KEPT>,
    opening: Opening,
) -> io::Result<()> {
    let judge = NamedJudge {
        word: opening.judge,
        demand: opening.demand,
    };
    let session = Session {
        rt,
        reader,
        line,
        processors: opening.processors,
    };
    match opening.rule {
        Rule::Named(word) => judge.run_by(word, session),
        Rule::Listed(listed) => judge.run(listed, session),
    }
}

// A session once its board is known.
struct Session<'a, I> {
    rt: &'a HostRuntime,
    reader: &'a mut Reader<I>,
    line: &'a mut Line<KEPT>,
    processors: u32,
}

impl<I: Read> Work for Session<'_, I> {
    type Output = io::Result<()>;

    ghost done = { λ _ _ _ _ _. Unit {0} };

    // Sets the board up, says so, and answers line after line.
    fn run<J: SizingJudge + Drop, P: Placement + Drop>(self, judge: J, rule: P) -> io::Result<()> {
        let Session {
            rt,
            reader,
            line,
            processors,
        } = self;
        let mut board = match Board::new(rt.alloc(), processors, judge, rule) {
            Ok(board) => board,
            Err(SetupError::Memory) => return Err(io::Error::from(AllocError)),
            Err(SetupError::Refused(fault)) => return refuse(rt, &fault),
        };
        let said = reply::opened(rt.alloc(), processors)?;
        rt.write_all(said.as_bytes())?;
        // Counted, as above.
        for _ in 0..u64::MAX {
            if !reader.read_line(line)? {
                break;
            }
            let text = answer(rt.alloc(), &mut board, line.text())?;
            rt.write_all(text.as_bytes())?;
        }
        Ok(())
    }
}
