// Short lists: empty, one more at the end, all that an iterator gives, all of it as a slice.
ghost use Rattle.std.specs.Prelude.{◌≡◌, ◌<◌, [], ◌∷◌, ◌++◌, length, take, nat_lt};
ghost use Rattle.std.specs.Iterator.{IsFinite};
ghost use Rattle.std.specs.Iterator.Runs.{WholeRun};
ghost use Rattle.processor.specs.Few.{held, pushed};

use crate::few::Few;

impl<T: Copy, const N: usize> Few<T, N> {
    // An empty list. The places not in use hold the filler.
    pub fn new(filler: T) -> Few<T, N>
        ensures { held result ≡ [] }
    {
        Few {
            items: [filler; N],
            len: 0,
        }
    }

    // The items of an iterator, as many as there is room for.
    pub fn collected<I: Iterator<Item = T> + Drop>(filler: T, items: I) -> Few<T, N>
        requires can { I.can_next items }
        requires finite { IsFinite (I.remaining items) }
        ensures { WholeRun I.next_gives items (λ p. held result ≡ take N p.items) }
    {
        let mut list = Few::new(filler);
        for x in items {
            list.push(x);
        }
        list
    }

    // One more at the end, if there is room: whether there was.
    pub fn push(&mut self, x: T) -> bool
        ensures room { result ≡ nat_lt (length (held self.old)) N }
        ensures after { held self.new ≡ pushed N (held self.old) x }
        ensures end { length (held self.old) < N → held self.new ≡ held self.old ++ (x ∷ []) }
    {
        if self.len >= N {
            return false;
        }
        self.items[self.len] = x;
        self.len += 1;
        true
    }

    pub fn as_slice(&self) -> &[T]
        ensures { result.now ≡ held self.now }
    {
        &self.items[..self.len]
    }
}
