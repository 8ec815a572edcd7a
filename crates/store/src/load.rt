// Load: the plan that an image says, in the place of the board's.
ghost use Rattle.std.specs.Prelude.{◌≡◌, List, Result};
ghost use Rattle.model.specs.declared.row.Row.{Row};
ghost use Rattle.board.specs.Plan.{plan};
ghost use Rattle.store.specs.declared.fault.BufferFault.{BufferFault};
ghost use Rattle.store.specs.Load.{Loaded};
ghost use Rattle.store.specs.Loading.{Loads};

use crate::fault::BufferFault as Fault;
use crate::unpack::unpack;
use board::board::Board;
use model::judge::Judge;

// Replaces the plan by that of the image, or refuses and changes nothing. It needs no memory.
pub fn load<J: Judge, P>(board: &mut Board<J, P>, image: &[u8]) -> Result<(), Fault>
    ensures loaded { Loaded (J.Judge.accepts board.old.judge) image.now (plan board.old) result (plan board.new) }
    ensures meant { Loads (J.Judge.accepts board.old.judge) image.now (plan board.old) result (plan board.new) }
    ensures only { (answer : Result (Unit {0}) BufferFault) (after : List (List Row)) → Loads (J.Judge.accepts board.old.judge) image.now (plan board.old) answer after → (answer ≡ result) × (after ≡ plan board.new) }
    ensures judge { board.new.judge ≡ board.old.judge }
    ensures rule { board.new.rule ≡ board.old.rule }
{
    let plan = unpack(board.plan.processors.len(), image)?;
    plan.check_keys()?;
    plan.check_judge(&board.judge)?;
    plan.refill(&mut board.plan.processors);
    Ok(())
}
