// Bytes that were read together, in fixed memory, and how far they are used: std's buffered reader has a heap.
ghost use Rattle.std.specs.Prelude.{◌≤◌};

#[derive(Clone, Copy)]
pub(crate) struct Chunk {
    bytes: [u8; 4096],
    at: usize,
    end: usize,
    ghost within: { at ≤ end },
    ghost chunked: { end ≤ 4096 },
}

impl Chunk {
    ghost use Rattle.std.specs.Prelude.{◌≡◌, ◌≤◌, [], length, take, drop, ◌==◌};
    ghost use Rattle.std.specs.List.{slice_get};
    ghost use Rattle.lines.specs.Reading.{unread};

    pub(crate) fn none() -> Chunk
        ensures { unread result ≡ [] }
    {
        Chunk::of([0; 4096], 0)
    }

    // The first bytes of an array, so many of them.
    pub(crate) fn of(bytes: [u8; 4096], count: usize) -> Chunk
        requires { count ≤ 4096 }
        ensures { unread result ≡ take count bytes }
    {
        Chunk {
            bytes,
            at: 0,
            end: count,
        }
    }

    pub(crate) fn is_empty(&self) -> bool
        ensures { result ≡ (length (unread self.now) == 0) }
    {
        self.at == self.end
    }

    // The next byte, which is then used.
    pub(crate) fn next(&mut self) -> Option<u8>
        ensures first { result ≡ slice_get (unread self.old) 0 }
        ensures rest { unread self.new ≡ drop 1 (unread self.old) }
    {
        if self.at == self.end {
            return None;
        }
        let byte = self.bytes[self.at];
        self.at += 1;
        Some(byte)
    }
}
