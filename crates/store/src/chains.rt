// The chains of an image: each record is reached once, from its processor's head along next.
ghost use Rattle.std.specs.Prelude.{◌≡◌, ◌+◌, ◌<◌, ◌≤◌, [], length, if◌then◌else◌, Ok, Err};
ghost use Rattle.store.specs.declared.fault.BufferRule.{BufferRule};
ghost use Rattle.store.specs.Fault.{fault};
ghost use Rattle.store.specs.Record.{next_at};
ghost use Rattle.store.specs.Chains.{head_at, barred, reach, walk, chains, all_true};
ghost use Rattle.store.specs.Followed.{Followed, Chained};

use crate::fault::{BufferFault, BufferRule as Rule};
use crate::image::Image;
use crate::lists::Chains;
use processor::few::Few;

impl Image<'_> {
    // The numbers along the chain of each processor.
    pub(crate) fn chains(&self) -> Result<Chains, BufferFault>
        ensures { Chained self.now.processors (chains (head_at self.now.bytes.now) (next_at self.now.processors self.now.bytes.now) self.now.processors self.now.records) result }
    {
        // In place: loading takes no memory.
        let mut reached = [false; 256];
        let mut chains = Chains::new(0);
        // A head's place follows from its number: there is no slice to go over.
        for p in 0..self.processors {
            chains.push(self.follow(p, &mut reached)?);
        }
        if !all_true(&reached[..self.records]) {
            return Err(Rule::Chains.anywhere());
        }
        Ok(chains)
    }

    // Follows the chain of one processor, counted from 0.
    fn follow(
        &self,
        processor: usize,
        reached: &mut [bool; 256],
    ) -> Result<Few<u16, 32>, BufferFault>
        requires { processor < self.now.processors }
        ensures { Followed (walk (next_at self.now.processors self.now.bytes.now) self.now.records 32 (head_at self.now.bytes.now processor) [] reached.old) (processor + 1) reached.new result }
    {
        let place = processor as u16 + 1;
        let mut chain = Few::new(0);
        let mut number = self.head(processor);
        while number != 0 {
            self.mark(number, place, reached)?;
            if !chain.push(number) {
                return Err(Rule::Chains.at(place));
            }
            number = self.next(number);
        }
        Ok(chain)
    }

    // Marks a record as reached, or refuses a number above the record count or of a record that was reached before.
    fn mark(&self, number: u16, place: u16, reached: &mut [bool; 256]) -> Result<(), BufferFault>
        requires { 1 ≤ number }
        ensures value { result ≡ (if barred self.now.records reached.old number then Err (fault BufferRule.Chains place) else Ok tt) }
        ensures after { reached.new ≡ (if barred self.now.records reached.old number then reached.old else reach reached.old number) }
    {
        let number = number as usize;
        if number > self.records || reached[number - 1] {
            return Err(Rule::Chains.at(place));
        }
        reached[number - 1] = true;
        Ok(())
    }
}

fn all_true(flags: &[bool]) -> bool
    ensures { result ≡ all_true flags.now }
{
    flags.iter().all(|flag| *flag)
}
