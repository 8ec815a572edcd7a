// An input that is read in chunks and given out line by line. std's buffered reader would need a heap.
ghost use Rattle.std.specs.Prelude.{◌≡◌, false, [], IfOk, IfNone};
ghost use Rattle.lines.specs.Held.{held};
ghost use Rattle.lines.specs.Reading.{left, Told};

use crate::chunk::Chunk;
use crate::line::Line;
use std::io;
use std::io::Read;

#[derive(Drop)]
pub struct Reader<I> {
    input: I,
    chunk: Chunk,
}

impl<I: Read> Reader<I> {
    // Nothing is read yet.
    pub fn new(input: I) -> Reader<I>
        ensures input { result.input ≡ input }
        ensures chunk { left result ≡ [] }
    {
        Reader {
            input,
            chunk: Chunk::none(),
        }
    }

    // Reads the next line, if there is one, and keeps its first N bytes. The last need not end with a newline.
    pub fn next_line<const N: usize>(&mut self) -> io::Result<Option<Line<N>>>
        ensures { IfOk result (λ line. IfNone line (left self.new ≡ [])) }
    {
        let mut line = Line::new();
        if !self.read_line(&mut line)? {
            return Ok(None);
        }
        Ok(Some(line))
    }

    // The same into a line that is lent, whatever it held: a long one is then neither filled with zeros nor moved. Answers whether there was a line.
    pub fn read_line<const N: usize>(&mut self, line: &mut Line<N>) -> io::Result<bool>
        ensures { IfOk result (λ found. found ≡ false → (left self.new ≡ []) × (held line.new ≡ [])) }
    {
        line.clear();
        if !self.more()? {
            return Ok(false);
        }
        // An input of unknown bytes has no measure, so the loop is counted.
        for _ in 0..u64::MAX {
            self.fill()?;
            let Some(byte) = self.chunk.next() else {
                break;
            };
            if line.feed(byte) {
                break;
            }
        }
        Ok(true)
    }

    // Whether the input has another byte.
    pub fn more(&mut self) -> io::Result<bool>
        ensures { Told (left self.new) result }
    {
        self.fill()?;
        Ok(!self.chunk.is_empty())
    }

    // Reads the next chunk once the last is used up.
    fn fill(&mut self) -> io::Result<()> {
        if self.chunk.is_empty() {
            let mut bytes = [0; 4096];
            let count = self.input.read(&mut bytes)?;
            self.chunk = Chunk::of(bytes, count);
        }
        Ok(())
    }
}
