// Lists: none, one more, and all of them.
ghost use Rattle.std.specs.Prelude.{◌≡◌, ◌+◌, ◌<◌, [], ◌∷◌, ◌++◌, length, take};
ghost use Rattle.processor.specs.Few.{held};
ghost use Rattle.store.specs.InPlace.{all_held};

use crate::lists::Lists;
use processor::few::Few;

impl<T: Copy> Lists<T> {
    // No lists. The places not in use hold the filler.
    pub(crate) fn new(filler: T) -> Lists<T>
        ensures none { all_held result ≡ [] }
        ensures count { result.count ≡ 0 }
    {
        Lists {
            lists: [Few::new(filler); 8],
            count: 0,
        }
    }

    pub(crate) fn push(&mut self, list: Few<T, 32>)
        requires { self.old.count < 8 }
        ensures after { all_held self.new ≡ all_held self.old ++ (held list ∷ []) }
        ensures count { self.new.count ≡ self.old.count + 1 }
    {
        self.lists[self.count] = list;
        self.count += 1;
    }

    pub(crate) fn as_slice(&self) -> &[Few<T, 32>]
        ensures items { result.now ≡ take self.now.count self.now.lists }
        ensures count { length result.now ≡ self.now.count }
    {
        &self.lists[..self.count]
    }
}
