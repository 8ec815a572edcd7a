// The worked examples together: judges and allowances, lines and replies, a whole session, stored bytes.
ghost use Rattle.session.specs.Examples.{Worked};

use judges::worked::examples_stand as judged;
use lines::examples::examples_stand as lined;
use store::theorems::one_row_stored;

// A theorem: the number says nothing.
pub fn worked_examples_stand() -> u8
    ensures { Worked }
{
    let _judges = judged();
    let _lines = lined();
    let _stored = one_row_stored();
    0
}
