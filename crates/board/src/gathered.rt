// What a withdrawal gathered: for each processor of the board the key gathered there, or 0, which is no key: docs/rules.md gives the answer this form.
ghost use Rattle.std.specs.Prelude.{◌≡◌};
ghost use Rattle.board.specs.Withdraw.{gathered_row};

use model::row::Row;
use processor::few::Few;

#[derive(Drop)]
pub struct Gathered {
    pub keys: Few<u16, 8>,
}

// The row that was gathered on a processor, of the key told of it and its rows now.
pub fn gathered_row(key: u16, rows: &[Row]) -> Option<Row>
    ensures { result ≡ gathered_row key rows.now }
{
    if key == 0 {
        return None;
    }
    rows.last().copied()
}
