// The reply lines, as heap text: that of an image has no room in the replies of fixed length.
ghost use Rattle.std.specs.Prelude.{◌≡◌, IfOk, string_bytes};
ghost use Rattle.lines.specs.Replies.{row_line, gone_line, board_line};
ghost use Rattle.bench.specs.Replies.{refused_at, image_line, shown_line, timing_line, allowance_line, verdict_line};

use benchlines::hex::encode;
use model::row::Row;
use model::timing::Timing;
use std::alloc::{AllocError, Global};

// A refusal, with its number and its place.
pub fn refused(heap: Global, number: u8, place: u16) -> Result<String, AllocError>
    ensures { IfOk result (λ s. string_bytes s ≡ refused_at number place) }
{
    format!(in heap; "refused {number} {place}\n")
}

pub fn opened(heap: Global, processors: u32) -> Result<String, AllocError>
    ensures { IfOk result (λ s. string_bytes s ≡ board_line processors) }
{
    format!(in heap; "board {processors}\n")
}

// An image behind a word.
pub fn image(heap: Global, word: &str, bytes: &[u8]) -> Result<String, AllocError>
    ensures { IfOk result (λ s. string_bytes s ≡ image_line word.now bytes.now) }
{
    let digits = encode(heap, bytes)?;
    format!(in heap; "{word} {digits}\n")
}

// A row that was looked at.
pub fn shown(heap: Global, row: Row) -> Result<String, AllocError>
    ensures { IfOk result (λ s. string_bytes s ≡ shown_line row) }
{
    let key = row.key;
    let kind = row.kind;
    let part = kind.part();
    let timing = timed(heap, row.timing)?;
    format!(in heap; "row {key} {kind} {part} {timing}")
}

// A timing, up to the end of its line.
fn timed(heap: Global, timing: Timing) -> Result<String, AllocError>
    ensures { IfOk result (λ s. string_bytes s ≡ timing_line timing) }
{
    let budget = timing.budget;
    let deadline = timing.deadline;
    let period = timing.period;
    format!(in heap; "{budget} {deadline} {period}\n")
}

// A row that was made, on a processor.
pub fn placed(heap: Global, processor: u8, row: Row) -> Result<String, AllocError>
    ensures { IfOk result (λ s. string_bytes s ≡ row_line processor row) }
{
    let key = row.key;
    let kind = row.kind;
    let budget = row.timing.budget;
    let deadline = row.timing.deadline;
    format!(in heap; "{key} {kind} {processor} {budget} {deadline}\n")
}

// A reservation that left.
pub fn gone(heap: Global, key: u32) -> Result<String, AllocError>
    ensures { IfOk result (λ s. string_bytes s ≡ gone_line key) }
{
    format!(in heap; "{key} gone\n")
}

pub fn allowance(heap: Global, number: u32) -> Result<String, AllocError>
    ensures { IfOk result (λ s. string_bytes s ≡ allowance_line number) }
{
    format!(in heap; "allowance {number}\n")
}

// A judge's answer.
pub(crate) fn verdict(heap: Global, yes: bool) -> Result<String, AllocError>
    ensures { IfOk result (λ s. string_bytes s ≡ verdict_line yes) }
{
    if yes {
        String::from_str(heap, "yes\n")
    } else {
        String::from_str(heap, "no\n")
    }
}
