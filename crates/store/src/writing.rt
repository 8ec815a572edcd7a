// The parts of an image, one after the other into a buffer.
ghost use Rattle.std.specs.Prelude.{◌≡◌, ◌+◌, ◌*◌, ◌<◌, ◌≤◌, length, vec_len};
ghost use Rattle.board.specs.Plan.{plan};
ghost use Rattle.store.specs.Image.{first, chain_bytes, records_bytes, heads_bytes, row_count};
ghost use Rattle.store.specs.Written.{Wrote};

use crate::encode::{first_of, record, two};
use crate::writer::Writer;
use board::board::Board;
use model::row::Row;

impl Writer<'_> {
    // Writes bytes, and moves on.
    pub(crate) fn put(&mut self, bytes: &[u8])
        requires { self.old.at + length bytes.now ≤ length self.old.buffer.now }
        ensures { Wrote self.old self.new bytes.now }
    {
        let end = self.at + bytes.len();
        self.buffer[self.at..end].copy_from_slice(bytes);
        self.at = end;
    }

    // For each processor the number of its first record: the next after those of the processors before it, so the number is kept along the way.
    pub(crate) fn put_heads<J, P>(&mut self, board: &Board<J, P>)
        requires { self.old.at + 2 * vec_len board.now.plan.processors ≤ length self.old.buffer.now }
        ensures { Wrote self.old self.new (heads_bytes 1 (plan board.now)) }
    {
        let mut number = 1;
        for p in board.plan.processors.as_slice() {
            let count = p.rows.len();
            self.put(&two(first_of(number, count)));
            number += count as u16;
        }
    }

    // The records of all processors' rows, numbered from 1 on, the number kept as for the heads.
    pub(crate) fn put_records<J, P>(&mut self, board: &Board<J, P>)
        requires { self.old.at + 18 * row_count (plan board.now) ≤ length self.old.buffer.now }
        ensures { Wrote self.old self.new (records_bytes 1 (plan board.now)) }
    {
        let mut number = 1;
        for p in board.plan.processors.as_slice() {
            let rows = p.rows.as_slice();
            self.put_chain(number, rows);
            number += rows.len() as u16;
        }
    }

    // The records of one processor's rows, numbered from a number on.
    fn put_chain(&mut self, from: u16, rows: &[Row])
        requires room { self.old.at + 18 * length rows.now ≤ length self.old.buffer.now }
        requires few { (1 ≤ from) × (from + length rows.now ≤ 65535) }
        ensures { Wrote self.old self.new (chain_bytes from rows.now) }
    {
        for (i, row) in rows.iter().enumerate() {
            let number = from + i as u16;
            self.put(&record(next_of(number, rows.len() - i - 1), row));
        }
    }
}

// The number of the record that follows a record in its chain, with so many records left there; 0 at its end.
fn next_of(number: u16, left: usize) -> u16
    requires { (1 ≤ number) × (number < 65535) }
    ensures { result ≡ first (number + 1) left }
{
    first_of(number + 1, left)
}
