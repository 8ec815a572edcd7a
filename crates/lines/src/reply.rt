// Replies: lines one after the other, made in memory that is fixed, and written over a buffer that the caller lends.
ghost use Rattle.std.specs.Prelude.{◌≡◌, ◌+◌, ◌≤◌, [], ◌++◌, length, decimal};
ghost use Rattle.lines.specs.Replies.{room, Wrote, text_of, row_line, gone_line, board_line, refused_line};

use arrayvec::ArrayString;
use itoa::Buffer;
use model::fault::LineFault;
use model::row::Row;

// A reply buffer has at least this many bytes: eight rows and a reservation that left take at most 251.
pub const REPLY_ROOM: usize = 256;

// Whether any reply fits the buffer.
pub fn check_room(out: &[u8]) -> Result<(), LineFault>
    ensures { result ≡ room (length out.now) }
{
    if out.len() < REPLY_ROOM {
        return Err(LineFault::Reply);
    }
    Ok(())
}

// Reply lines, at most N bytes.
#[derive(Clone, Copy)]
pub struct Reply<const N: usize> {
    text: ArrayString<N>,
}

#[tactic(auto, using(crate::proofs::Sizes::key_short, crate::proofs::Sizes::byte_short, crate::proofs::Sizes::ticks_short, crate::proofs::Sizes::one_digit))]
impl<const N: usize> Reply<N> {
    pub fn new() -> Reply<N>
        ensures { text_of result ≡ [] }
    {
        Reply {
            text: ArrayString::new(),
        }
    }

    // The bytes of the lines.
    pub fn text(&self) -> &[u8]
        ensures text { result.now ≡ text_of self.now }
        ensures fits { length result.now ≤ N }
    {
        self.text.as_str().as_bytes()
    }

    // Writes the lines over a buffer from a place on, and answers the place after them.
    pub fn put(&self, out: &mut [u8], at: usize) -> usize
        requires { at + length (text_of self.now) ≤ length out.old }
        ensures wrote { Wrote out.old at (text_of self.now) out.new result }
        ensures short { result ≤ at + N }
    {
        let text = self.text();
        let end = at + text.len();
        out[at..end].copy_from_slice(text);
        end
    }

    // A row that was made, on a processor: at most 30 bytes.
    pub fn row(&mut self, processor: u8, row: Row)
        requires { length (text_of self.old) + 30 ≤ N }
        ensures text { text_of self.new ≡ text_of self.old ++ row_line processor row }
        ensures short { length (text_of self.new) ≤ length (text_of self.old) + 30 }
    {
        self.number(row.key as u32, " ");
        self.word(row.kind.word(), " ");
        self.number(processor as u32, " ");
        self.number(row.timing.budget, " ");
        self.number(row.timing.deadline, "\n");
    }

    // A reservation that left: at most 11 bytes.
    pub fn gone(&mut self, key: u16)
        requires { length (text_of self.old) + 11 ≤ N }
        ensures text { text_of self.new ≡ text_of self.old ++ gone_line key }
        ensures short { length (text_of self.new) ≤ length (text_of self.old) + 11 }
    {
        self.number(key as u32, " ");
        self.word("gone", "\n");
    }

    // A board that was set up, with so many processors: at most 10 bytes.
    pub fn board(&mut self, processors: u8)
        requires { length (text_of self.old) + 10 ≤ N }
        ensures text { text_of self.new ≡ text_of self.old ++ board_line processors }
        ensures short { length (text_of self.new) ≤ length (text_of self.old) + 10 }
    {
        self.word("board", " ");
        self.number(processors as u32, "\n");
    }

    // A line that was refused, with the refusal's number: at most 12 bytes.
    pub fn refused(&mut self, number: u8)
        requires { length (text_of self.old) + 12 ≤ N }
        ensures text { text_of self.new ≡ text_of self.old ++ refused_line number }
        ensures short { length (text_of self.new) ≤ length (text_of self.old) + 12 }
    {
        self.word("refused", " ");
        self.number(number as u32, "\n");
    }

    // A word, and what ends it.
    fn word(&mut self, word: &str, end: &str)
        requires { length (text_of self.old) + length word.now + length end.now ≤ N }
        ensures text { text_of self.new ≡ text_of self.old ++ (word.now ++ end.now) }
        ensures long { length (text_of self.new) ≡ length (text_of self.old) + length word.now + length end.now }
    {
        self.text.push_str(word);
        self.text.push_str(end);
    }

    // The decimal digits of a number, and what ends them.
    fn number(&mut self, number: u32, end: &str)
        requires { length (text_of self.old) + length (decimal number) + length end.now ≤ N }
        ensures text { text_of self.new ≡ text_of self.old ++ (decimal number ++ end.now) }
        ensures long { length (text_of self.new) ≡ length (text_of self.old) + length (decimal number) + length end.now }
    {
        let mut digits = Buffer::new();
        self.word(digits.format(number), end);
    }
}
