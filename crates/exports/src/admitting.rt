// A list of admissions on a stored plan.
ghost use Rattle.std.specs.Prelude.{◌≡◌, ◌≤◌};
ghost use Rattle.board.specs.Plan.{plan};
ghost use Rattle.exports.specs.Boards.{count_over, admitting, Admitting};

use crate::numbers::Setting;
use crate::opening::open;
use crate::reply::Reply;
use board::board::Board;
use model::judge::SizingJudge;
use model::wanted::Wanted;
use placement::rule::Placement;
use std::alloc::Global;

// How many of these were admitted, one after the other, on a board with the image's plan.
#[unsafe(no_mangle)]
pub extern "C" fn wadispoon_admit(
    heap: Global,
    setting: &Setting,
    image: &[u8],
    wanted: &[Wanted],
) -> Reply
    ensures { Admitting setting.now image.now wanted.now result }
{
    match open(heap, setting, image) {
        Ok(mut board) => Reply::of(admit_all(&mut board, wanted)),
        Err(refusal) => Reply::refusal(refusal),
    }
}

fn admit_all<J: SizingJudge, P: Placement>(board: &mut Board<J, P>, wanted: &[Wanted]) -> u64
    ensures { result ≡ count_over (admitting P.Rank.Rank.first (P.ranks board.old.rule) (J.Judge.accepts board.old.judge) (J.allows board.old.judge)) (plan board.old) wanted.now }
{
    let mut count = 0;
    // A loop: a sum over calls that change the board would be no plainer.
    for one in wanted {
        count += admit_one(board, *one);
    }
    count
}

// What one call adds to the count.
fn admit_one<J: SizingJudge, P: Placement>(board: &mut Board<J, P>, one: Wanted) -> u64
    ensures value { result ≡ (admitting P.Rank.Rank.first (P.ranks board.old.rule) (J.Judge.accepts board.old.judge) (J.allows board.old.judge) (plan board.old) one).0 }
    ensures bound { result ≤ 1 }
    ensures after { plan board.new ≡ (admitting P.Rank.Rank.first (P.ranks board.old.rule) (J.Judge.accepts board.old.judge) (J.allows board.old.judge) (plan board.old) one).1 }
    ensures judge { board.new.judge ≡ board.old.judge }
    ensures rule { board.new.rule ≡ board.old.rule }
{
    board.admit(one).is_ok() as u64
}
