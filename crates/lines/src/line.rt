// A line that is being read, in memory that is fixed: its first N bytes. With one more than a line may have, one that is too long shows.
ghost use Rattle.std.specs.Prelude.{◌≤◌};

// An array and a length, since a line is `Copy` and no `ArrayVec` is.
#[derive(Clone, Copy)]
pub struct Line<const N: usize> {
    bytes: [u8; N],
    len: usize,
    ghost within: { len ≤ N },
}

impl<const N: usize> Line<N> {
    ghost use Rattle.std.specs.Prelude.{◌≡◌, [], ◌∷◌, ◌++◌, take, if◌then◌else◌, ◌==◌, nat_eq};
    ghost use Rattle.lines.specs.Held.{held};

    pub fn new() -> Line<N>
        ensures { held result ≡ [] }
    {
        Line {
            bytes: [0; N],
            len: 0,
        }
    }

    // What was collected: the line, or its first N bytes.
    pub fn text(&self) -> &[u8]
        ensures { result.now ≡ held self.now }
    {
        &self.bytes[..self.len]
    }

    // Takes the next byte, and answers whether it ends the line. What a line has beyond N bytes is let go.
    pub fn feed(&mut self, byte: u8) -> bool
        ensures ends { result ≡ (byte == 10) }
        ensures after { held self.new ≡ (if nat_eq byte 10 then held self.old else take N (held self.old ++ (byte ∷ []))) }
    {
        if byte == b'\n' {
            return true;
        }
        self.push(byte);
        false
    }

    // Begins the next line.
    pub fn clear(&mut self)
        ensures { held self.new ≡ [] }
    {
        self.len = 0;
    }

    // One byte more, while fewer than N are kept.
    fn push(&mut self, byte: u8)
        ensures { held self.new ≡ take N (held self.old ++ (byte ∷ [])) }
    {
        if self.len < N {
            self.bytes[self.len] = byte;
            self.len += 1;
        }
    }
}
