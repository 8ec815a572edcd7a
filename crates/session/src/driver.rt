// A session over an input: the first line sets a board up, which is kept until the session ends. What is read and printed no contract says; what
// is answered is that of `first_line` and `answer`. An input of unknown bytes has no measure, so the loops over its lines are counted.
use crate::answer::answer;
use crate::first::{First, Start, first_line};
use crate::reader::{Found, KEPT, Next, Reader};
use lines::choice::{NamedJudge, Work};
use lines::line::Line;
use lines::reply::REPLY_ROOM;
use model::judge::SizingJudge;
use placement::rule::Placement;
use std::io;
use std::io::Read;

// One session over an input. What follows a refused first line is not read.
pub fn serve<I: Read + Drop>(rt: &HostRuntime, input: I) -> io::Result<()> {
    let mut reader = Reader::new(input, false);
    run(rt, &mut reader)?;
    Ok(())
}

// Many sessions, parted by lines `----`, each on a board of its own; `----` follows each one's replies.
pub fn replay<I: Read + Drop>(rt: &HostRuntime, input: I) -> io::Result<()> {
    let mut reader = Reader::new(input, true);
    for _ in 0..u64::MAX {
        if !reader.more()? {
            break;
        }
        if let Ended::Refused = run(rt, &mut reader)? {
            pass_over(&mut reader)?;
        }
        rt.write_all(b"----\n")?;
    }
    Ok(())
}

// How a session ended.
#[derive(Clone, Copy)]
pub enum Ended {
    // All its lines were read.
    Over,
    // Its first line was refused, and what follows was not read.
    Refused,
}

// Waits for the first line, and keeps the board that it asks for.
pub fn run<I: Read>(rt: &HostRuntime, reader: &mut Reader<I>) -> io::Result<Ended> {
    let mut line = Line::new();
    // As a host lends one.
    let mut reply = [0u8; REPLY_ROOM];
    for _ in 0..u64::MAX {
        let Found::Line = reader.read_line(&mut line)? else {
            break;
        };
        let Ok((first, end)) = first_line(line.text(), &mut reply) else {
            unreachable!()
        };
        match first {
            First::Wait => {}
            First::Refused(_) => {
                rt.write_all(&reply[0..end])?;
                return Ok(Ended::Refused);
            }
            First::Board(start) => {
                let judge = NamedJudge {
                    word: start.judge,
                    demand: start.sizes.demand,
                };
                let session = Session {
                    rt,
                    reader,
                    line: &mut line,
                    start,
                    said: &reply[0..end],
                };
                judge.run_by(start.rule, session)?;
                break;
            }
        }
    }
    Ok(Ended::Over)
}

// What follows a refused first line, up to the session's end.
fn pass_over<I: Read>(reader: &mut Reader<I>) -> io::Result<()> {
    for _ in 0..u64::MAX {
        let Next::Line(_) = reader.next_line()? else {
            break;
        };
    }
    Ok(())
}

// A session once its board is known.
struct Session<'a, I> {
    rt: &'a HostRuntime,
    reader: &'a mut Reader<I>,
    line: &'a mut Line<KEPT>,
    start: Start,
    said: &'a [u8],
}

impl<I: Read> Work for Session<'_, I> {
    type Output = io::Result<()>;

    ghost done = { λ _ _ _ _ _. Unit {0} };

    // Sets the board up, says so, and answers line after line.
    fn run<J: SizingJudge + Drop, P: Placement + Drop>(self, judge: J, rule: P) -> io::Result<()> {
        let Session {
            rt,
            reader,
            line,
            start,
            said,
        } = self;
        let mut board = start.sizes.board(rt.alloc(), judge, rule)?;
        rt.write_all(said)?;
        let mut reply = [0u8; REPLY_ROOM];
        for _ in 0..u64::MAX {
            let Found::Line = reader.read_line(line)? else {
                break;
            };
            let Ok(end) = answer(&mut board, line.text(), &mut reply) else {
                unreachable!()
            };
            rt.write_all(&reply[0..end])?;
        }
        Ok(())
    }
}
