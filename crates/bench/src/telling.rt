// What a line is answered with, and the text that says it.
ghost use Rattle.std.specs.Prelude.{◌≡◌, ◌≤◌, map, length, IfOk, string_bytes};
ghost use Rattle.processor.specs.Rows.{rows_of};
ghost use Rattle.board.specs.Plan.{plan};
ghost use Rattle.store.specs.Image.{image};
ghost use Rattle.bench.specs.Replies.{image_line};
ghost use Rattle.bench.specs.Rows.{gathered_line, left_text, rows_text};
ghost use Rattle.bench.specs.Outcomes.{answer_text};

use crate::reply;
use board::admission::{Admission, Placed};
use board::board::Board;
use board::gathered::{Gathered, gathered_row};
use model::row::Row;
use processor::rows::Processor;
use std::alloc::{AllocError, Global};
use store::save::save;

#[derive(Drop)]
pub(crate) enum Answer {
    Nothing,
    Made(Admission),
    Left { key: u32, gathered: Gathered },
    Saved,
    Loaded,
    Row(Row),
    Verdict(bool),
    Allowance(u32),
}

impl Answer {
    // What was gathered and an image are told from the board, as it is after the line.
    pub(crate) fn text<J, P>(&self, heap: Global, board: &Board<J, P>) -> Result<String, AllocError>
        ensures { IfOk result (λ s. string_bytes s ≡ answer_text (plan board.now) self.now) }
    {
        match self {
            Answer::Nothing => Ok(String::new(heap)),
            Answer::Made(admission) => made(heap, admission.rows()),
            Answer::Left { key, gathered } => left(
                heap,
                *key,
                gathered.keys.as_slice(),
                board.plan.processors.as_slice(),
            ),
            Answer::Saved => stored(heap, "saved", board),
            Answer::Loaded => stored(heap, "loaded", board),
            Answer::Row(row) => reply::shown(heap, *row),
            Answer::Verdict(accepted) => reply::verdict(heap, *accepted),
            Answer::Allowance(number) => reply::allowance(heap, *number),
        }
    }
}

// A line for each row that was made.
fn made(heap: Global, rows: &[Placed]) -> Result<String, AllocError>
    ensures { IfOk result (λ s. string_bytes s ≡ rows_text rows.now) }
{
    let mut text = String::new(heap);
    for placed in rows {
        let line = reply::placed(heap, placed.processor, placed.row)?;
        text.push_str(line.as_str())?;
    }
    Ok(text)
}

// The key that left, and for each processor on which something was gathered the last row there.
fn left(
    heap: Global,
    key: u32,
    keys: &[u16],
    processors: &[Processor],
) -> Result<String, AllocError>
    requires { length keys.now ≤ 8 }
    ensures { IfOk result (λ s. string_bytes s ≡ left_text key keys.now (map rows_of processors.now)) }
{
    let mut text = reply::gone(heap, key)?;
    for (i, (key, processor)) in keys.iter().zip(processors).enumerate() {
        let line = gathered_on(heap, i as u8 + 1, *key, processor.rows.as_slice())?;
        text.push_str(line.as_str())?;
    }
    Ok(text)
}

// A line for the row that was gathered, if one was.
fn gathered_on(heap: Global, number: u8, key: u16, rows: &[Row]) -> Result<String, AllocError>
    ensures { IfOk result (λ s. string_bytes s ≡ gathered_line number key rows.now) }
{
    match gathered_row(key, rows) {
        Some(row) => reply::placed(heap, number, row),
        None => Ok(String::new(heap)),
    }
}

// The image of the plan behind a word. That of any plan has room in the buffer, which is in place as `save` wants one lent.
fn stored<J, P>(heap: Global, word: &str, board: &Board<J, P>) -> Result<String, AllocError>
    ensures { IfOk result (λ s. string_bytes s ≡ image_line word.now (image (plan board.now))) }
{
    let mut buffer = [0u8; 4628];
    let length = save(board, &mut buffer).unwrap();
    reply::image(heap, word, &buffer[0..length])
}
