// Rows as reply lines, one after the other.
ghost use Rattle.std.specs.Prelude.{◌≡◌, ◌+◌, ◌*◌, ◌≤◌, ◌++◌, map, length};
ghost use Rattle.processor.specs.Rows.{rows_of};
ghost use Rattle.lines.specs.Replies.{Wrote, text_of, row_line};
ghost use Rattle.session.specs.Rows.{rows_text, gathered_line, gathered_text};

use board::admission::Placed;
use board::gathered::gathered_row;
use lines::reply::Reply;
use processor::rows::Processor;

// A line for each row: at most 30 bytes a row.
pub fn add_rows<const N: usize>(reply: &mut Reply<N>, rows: &[Placed])
    requires { length (text_of reply.old) + 30 * length rows.now ≤ N }
    ensures text { text_of reply.new ≡ text_of reply.old ++ rows_text rows.now }
    ensures short { length (text_of reply.new) ≤ length (text_of reply.old) + 30 * length rows.now }
{
    for placed in rows {
        reply.row(placed.processor, placed.row);
    }
}

// A line for each processor on which something was gathered: the last row there.
pub fn add_gathered<const N: usize>(reply: &mut Reply<N>, keys: &[u16], processors: &[Processor])
    requires room { length (text_of reply.old) + 240 ≤ N }
    requires eight { length keys.now ≤ 8 }
    ensures text { text_of reply.new ≡ text_of reply.old ++ gathered_text 1 keys.now (map rows_of processors.now) }
    ensures short { length (text_of reply.new) ≤ length (text_of reply.old) + 240 }
{
    for (i, (key, processor)) in keys.iter().zip(processors).enumerate() {
        add_gathered_row(reply, i as u8 + 1, *key, processor);
    }
}

// A line for what was gathered on a processor, if anything was.
fn add_gathered_row<const N: usize>(
    reply: &mut Reply<N>,
    number: u8,
    key: u16,
    processor: &Processor,
)
    requires { length (text_of reply.old) + 30 ≤ N }
    ensures text { text_of reply.new ≡ text_of reply.old ++ gathered_line number key (rows_of processor.now) }
    ensures short { length (text_of reply.new) ≤ length (text_of reply.old) + 30 }
{
    if let Some(row) = gathered_row(key, processor.rows.as_slice()) {
        reply.row(number, row);
    }
}

// The same lines over a buffer from a place on, and the place after them: of however many rows.
pub fn put_rows(out: &mut [u8], at: usize, rows: &[Placed]) -> usize
    requires { at + 30 * length rows.now ≤ length out.old }
    ensures wrote { Wrote out.old at (rows_text rows.now) out.new result }
    ensures short { result ≤ at + 30 * length rows.now }
{
    let mut end = at;
    for row in rows {
        end = put_row(out, end, *row);
    }
    end
}

// What was gathered, over a buffer from a place on, and the place after it.
pub fn put_gathered(out: &mut [u8], at: usize, keys: &[u16], processors: &[Processor]) -> usize
    requires room { at + 240 ≤ length out.old }
    requires eight { length keys.now ≤ 8 }
    ensures wrote { Wrote out.old at (gathered_text 1 keys.now (map rows_of processors.now)) out.new result }
    ensures short { result ≤ at + 240 }
{
    let mut lines: Reply<240> = Reply::new();
    add_gathered(&mut lines, keys, processors);
    lines.put(out, at)
}

fn put_row(out: &mut [u8], at: usize, placed: Placed) -> usize
    requires { at + 30 ≤ length out.old }
    ensures wrote { Wrote out.old at (row_line placed.processor placed.row) out.new result }
    ensures short { result ≤ at + 30 }
{
    let mut line: Reply<30> = Reply::new();
    line.row(placed.processor, placed.row);
    line.put(out, at)
}
