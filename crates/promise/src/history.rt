// Any list of calls from set-up on, answered one after the other, with all that is promised of the answers and the plan.
ghost use Rattle.std.specs.Prelude.{◌≡◌};
ghost use Rattle.board.specs.Plan.{plan};
ghost use Rattle.board.specs.Admit.{admitted, after, told};
ghost use Rattle.promise.specs.History.{Derived};
ghost use Rattle.promise.specs.Promise.{meant, Begun, Ran};

use crate::call::{Answer, Call};
use board::admission::Admission;
use board::board::Board;
use board::setup::SetupError;
use model::fault::RequestFault;
use model::judge::SizingJudge;
use model::wanted::Wanted;
use placement::rule::Placement;
use std::alloc::Global;
use store::load::load;

// A board after a list of calls, and the answer to each.
#[derive(Drop)]
pub struct Outcome<J, P> {
    pub board: Board<J, P>,
    pub answers: Vec<Answer>,
}

// Sets a board up, of what a board is set up with, and makes the calls. Room for the answers is taken before the first call, so that no answer is ever want of memory.
pub fn run<J: SizingJudge + Drop, P: Placement + Drop>(
    heap: Global,
    processors: u32,
    judge: J,
    rule: P,
    calls: &[Call],
) -> Result<Outcome<J, P>, SetupError>
    ensures { Ran (meant P.Rank.Rank.first (P.Placement.ranks rule) (J.Judge.accepts judge) (J.SizingJudge.allows judge)) processors judge rule calls.now result }
{
    let mut outcome = begin(heap, processors, judge, rule, calls.len())?;
    for call in calls {
        let answer = make(&mut outcome.board, call);
        outcome.answers.push_reserved(answer);
    }
    Ok(outcome)
}

// An empty board, and room for so many answers.
fn begin<J: Drop, P: Drop>(
    heap: Global,
    processors: u32,
    judge: J,
    rule: P,
    room: usize,
) -> Result<Outcome<J, P>, SetupError>
    ensures { Begun processors judge rule room result }
{
    let board = Board::new(heap, processors, judge, rule)?;
    let answers = Vec::with_capacity(heap, room)?;
    Ok(Outcome { board, answers })
}

// Makes one call.
pub fn make<J: SizingJudge, P: Placement>(board: &mut Board<J, P>, call: &Call) -> Answer
    ensures derived { Derived (meant P.Rank.Rank.first (P.Placement.ranks board.old.rule) (J.Judge.accepts board.old.judge) (J.SizingJudge.allows board.old.judge)) (plan board.old) call.now result (plan board.new) }
    ensures judge { board.new.judge ≡ board.old.judge }
    ensures rule { board.new.rule ≡ board.old.rule }
{
    match call {
        Call::Admit(wanted) => Answer::Admitted(admit(board, *wanted)),
        Call::Withdraw { key } => Answer::Withdrawn(board.withdraw(*key)),
        Call::Load { image } => Answer::Loaded(load(board, image)),
    }
}

// One admission, each number of the call in its place: what `make` proves of it stands on this alone.
fn admit<J: SizingJudge, P: Placement>(
    board: &mut Board<J, P>,
    wanted: Wanted,
) -> Result<Admission, RequestFault>
    ensures answer { told result ≡ admitted P.Rank.Rank.first (P.Placement.ranks board.old.rule) (J.Judge.accepts board.old.judge) (J.SizingJudge.allows board.old.judge) (plan board.old) wanted.key wanted.budget wanted.deadline wanted.period }
    ensures after { plan board.new ≡ after (plan board.old) (told result) }
    ensures judge { board.new.judge ≡ board.old.judge }
    ensures rule { board.new.rule ≡ board.old.rule }
{
    board.admit(wanted)
}
