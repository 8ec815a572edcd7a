// Look: the row at a processor and a position, both counted from 1.
ghost use Rattle.std.specs.Prelude.{◌≡◌};
ghost use Rattle.board.specs.Plan.{plan, lists};
ghost use Rattle.processor.specs.Look.{counted};
ghost use Rattle.board.specs.Look.{rows_seen, looked};

use crate::board::Board;
use crate::plan::Plan;
use model::fault::NamingFault;
use model::row::Row;
use processor::rows::Processor;

impl<J, P> Board<J, P> {
    pub fn look(&self, processor: u32, position: u32) -> Result<Row, NamingFault>
        ensures { result ≡ looked (plan self.now) processor position }
    {
        let found = self.plan.processor(processor).ok_or(NamingFault::Row)?;
        found.look(position)
    }
}

impl Plan {
    fn processor(&self, number: u32) -> Option<&Processor>
        ensures { rows_seen result ≡ counted (lists self.now) number }
    {
        let index = (number as usize).checked_sub(1)?;
        self.processors.get(index)
    }
}
