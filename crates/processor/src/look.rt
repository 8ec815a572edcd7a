// The row at a position, counted from 1.
ghost use Rattle.std.specs.Prelude.{◌≡◌};
ghost use Rattle.processor.specs.Rows.{rows_of};
ghost use Rattle.processor.specs.Look.{named, counted};

use crate::rows::Processor;
use model::fault::NamingFault;
use model::row::Row;

impl Processor {
    pub fn look(&self, position: u32) -> Result<Row, NamingFault>
        ensures { result ≡ named (counted (rows_of self.now) position) }
    {
        self.row_at(position).ok_or(NamingFault::Row)
    }

    fn row_at(&self, position: u32) -> Option<Row>
        ensures { result ≡ counted (rows_of self.now) position }
    {
        let index = position.checked_sub(1)?;
        self.rows.get(index as usize).copied()
    }
}
