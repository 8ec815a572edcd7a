// The rows that the records of an image say, by number and then along the chains.
ghost use Rattle.std.specs.Prelude.{◌≡◌, ◌≤◌, map, length};
ghost use Rattle.std.specs.List.{AllByRecursion};
ghost use Rattle.processor.specs.Few.{held};
ghost use Rattle.model.specs.declared.row.Row.{Row};
ghost use Rattle.store.specs.InPlace.{all_held};
ghost use Rattle.store.specs.Record.{entry_at};
ghost use Rattle.store.specs.Records.{Numbered, picked};
ghost use Rattle.store.specs.Reading.{Read, ReadAll};

use crate::fault::BufferFault;
use crate::image::Image;
use crate::lists::{Chains, Plan};
use model::row::{Kind, Row as BoardRow};
use processor::asking::UNUSED;
use processor::few::Few;

impl Image<'_> {
    // The rows of all records, in the order of their numbers.
    pub(crate) fn rows(&self) -> Result<Few<BoardRow, 256>, BufferFault>
        ensures { ReadAll (entry_at self.now.processors self.now.bytes.now) self.now.records result }
    {
        let mut rows = Few::new(filler());
        // A record's place follows from its number: there is no slice to go over.
        for number in 1..self.records as u16 + 1 {
            rows.push(self.row(number)?);
        }
        Ok(rows)
    }

    fn row(&self, number: u16) -> Result<BoardRow, BufferFault>
        requires { (1 ≤ number) × (number ≤ self.now.records) }
        ensures { Read (entry_at self.now.processors self.now.bytes.now number) number result }
    {
        BoardRow::try_from(self.entry(number)).map_err(|rule| rule.at(number))
    }
}

// What stands where there is no row.
pub(crate) fn filler() -> BoardRow {
    BoardRow {
        key: 0,
        kind: Kind::Whole,
        timing: UNUSED,
    }
}

impl Chains {
    // The rows along each chain.
    pub(crate) fn pick(&self, rows: &[BoardRow]) -> Plan
        requires { AllByRecursion (Numbered (length rows.now)) (all_held self.now) }
        ensures along { (d : Row) → all_held result ≡ map (picked rows.now d) (all_held self.now) }
        ensures count { result.count ≡ self.now.count }
    {
        let mut picked = Plan::new(filler());
        for chain in self.as_slice() {
            picked.push(pick(chain.as_slice(), rows));
        }
        picked
    }
}

fn pick(numbers: &[u16], rows: &[BoardRow]) -> Few<BoardRow, 32>
    requires { (length numbers.now ≤ 32) × (Numbered (length rows.now) numbers.now) }
    ensures { (d : Row) → held result ≡ picked rows.now d numbers.now }
{
    let mut picked = Few::new(filler());
    for number in numbers {
        picked.push(rows[*number as usize - 1]);
    }
    picked
}
