// What an image says: its header, and its heads and records by number.
ghost use Rattle.std.specs.Prelude.{◌≡◌, ◌+◌, ◌<◌, ◌≤◌, length};
ghost use Rattle.store.specs.Numbers.{two_at, four_at};
ghost use Rattle.store.specs.Chains.{head_at};
ghost use Rattle.store.specs.Record.{start, next_at, entry_at};
ghost use Rattle.store.specs.Read.{Headed};

use crate::entry::Entry;
use crate::fault::{BufferFault, BufferRule};
use crate::image::Image;
use crate::layout::image_length;

// Records are asked by number: a type for a number that is one would be made anew at each step of a chain.
impl<'a> Image<'a> {
    // The image, if its header suits a board of so many processors and its own length.
    pub(crate) fn read(processors: usize, bytes: &'a [u8]) -> Result<Image<'a>, BufferFault>
        requires { processors ≤ 8 }
        ensures { Headed processors bytes.now result }
    {
        if bytes.len() < 4 {
            return Err(BufferRule::Header.anywhere());
        }
        if bytes[0] != 1 {
            return Err(BufferRule::Form.anywhere());
        }
        if bytes[1] as usize != processors {
            return Err(BufferRule::Processors.anywhere());
        }
        let records = two_at(bytes, 2) as usize;
        if records > 256 || bytes.len() != image_length(processors, records) {
            return Err(BufferRule::Length.anywhere());
        }
        Ok(Image {
            bytes,
            processors,
            records,
        })
    }

    // The number of the first record of a processor's chain, processors counted from 0; 0 for none, as the format has it.
    pub(crate) fn head(&self, processor: usize) -> u16
        requires { processor < self.now.processors }
        ensures { result ≡ head_at self.now.bytes.now processor }
    {
        two_at(self.bytes, 4 + 2 * processor)
    }

    // The number of the record that follows a record in its chain; 0 for none, as the format has it.
    pub(crate) fn next(&self, number: u16) -> u16
        requires { (1 ≤ number) × (number ≤ self.now.records) }
        ensures { result ≡ next_at self.now.processors self.now.bytes.now number }
    {
        two_at(self.bytes, self.start(number))
    }

    // What a record says of its row.
    pub(crate) fn entry(&self, number: u16) -> Entry
        requires { (1 ≤ number) × (number ≤ self.now.records) }
        ensures { result ≡ entry_at self.now.processors self.now.bytes.now number }
    {
        let at = self.start(number);
        Entry {
            key: two_at(self.bytes, at + 2),
            kind: self.bytes[at + 4],
            part: self.bytes[at + 5],
            budget: four_at(self.bytes, at + 6),
            deadline: four_at(self.bytes, at + 10),
            period: four_at(self.bytes, at + 14),
        }
    }

    // Where a record begins. A type for the numbers of records would be made anew at each step of a chain.
    fn start(&self, number: u16) -> usize
        requires { (1 ≤ number) × (number ≤ self.now.records) }
        ensures value { result ≡ start self.now.processors number }
        ensures within { result + 18 ≤ length self.now.bytes.now }
    {
        image_length(self.processors, number as usize - 1)
    }
}

// The number that two bytes hold. No trait has `from_le_bytes`, so each width has its own function.
fn two_at(bytes: &[u8], at: usize) -> u16
    requires { at + 2 ≤ length bytes.now }
    ensures { result ≡ two_at bytes.now at }
{
    u16::from_le_bytes([bytes[at], bytes[at + 1]])
}

// The number that four bytes hold.
fn four_at(bytes: &[u8], at: usize) -> u32
    requires { at + 4 ≤ length bytes.now }
    ensures { result ≡ four_at bytes.now at }
{
    u32::from_le_bytes([bytes[at], bytes[at + 1], bytes[at + 2], bytes[at + 3]])
}
