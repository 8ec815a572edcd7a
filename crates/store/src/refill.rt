// The board's processors with other rows, in the memory that they have.
ghost use Rattle.std.specs.Prelude.{◌≡◌, map, vec_len};
ghost use Rattle.processor.specs.Few.{held};
ghost use Rattle.processor.specs.Rows.{rows_of};
ghost use Rattle.store.specs.InPlace.{all_held};

use crate::lists::Plan;
use model::row::Row;
use processor::few::Few;
use processor::rows::Processor;

impl Plan {
    // Gives each processor its rows.
    pub(crate) fn refill(&self, processors: &mut Vec<Processor>)
        requires { self.now.count ≡ vec_len processors.old }
        ensures after { map rows_of processors.new.items ≡ all_held self.now }
        ensures count { vec_len processors.new ≡ vec_len processors.old }
    {
        // By index: of what `iter_mut().zip(..)` lends out, a proof knows nothing afterwards.
        for (i, rows) in self.as_slice().iter().enumerate() {
            refill(&mut processors[i], rows);
        }
    }
}

fn refill(processor: &mut Processor, rows: &Few<Row, 32>)
    ensures { rows_of processor.new ≡ held rows.now }
{
    processor.rows.clear();
    // One by one: `extend_from_slice` may ask for memory.
    for row in rows.as_slice() {
        processor.rows.push_reserved(*row);
    }
}
