// A list of withdrawals from a stored plan.
ghost use Rattle.std.specs.Prelude.{◌≡◌, ◌≤◌};
ghost use Rattle.board.specs.Plan.{plan};
ghost use Rattle.exports.specs.Boards.{count_over, withdrawing, Withdrawing};

use crate::numbers::Setting;
use crate::opening::open;
use crate::reply::Reply;
use board::board::Board;
use model::judge::Judge;
use std::alloc::Global;

// How many of these keys stood and were withdrawn, one after the other, from a board with the image's plan.
#[unsafe(no_mangle)]
pub extern "C" fn wadispoon_withdraw(
    heap: Global,
    setting: &Setting,
    image: &[u8],
    keys: &[u32],
) -> Reply
    ensures { Withdrawing setting.now image.now keys.now result }
{
    match open(heap, setting, image) {
        Ok(mut board) => Reply::of(withdraw_all(&mut board, keys)),
        Err(refusal) => Reply::refusal(refusal),
    }
}

// As `admit_all`, but of another call, which promises something else.
fn withdraw_all<J: Judge, P>(board: &mut Board<J, P>, keys: &[u32]) -> u64
    ensures { result ≡ count_over (withdrawing (J.accepts board.old.judge)) (plan board.old) keys.now }
{
    let mut count = 0;
    // A loop: a sum over calls that change the board would be no plainer.
    for key in keys {
        count += withdraw_one(board, *key);
    }
    count
}

// What one call adds to the count.
fn withdraw_one<J: Judge, P>(board: &mut Board<J, P>, key: u32) -> u64
    ensures value { result ≡ (withdrawing (J.accepts board.old.judge) (plan board.old) key).0 }
    ensures bound { result ≤ 1 }
    ensures after { plan board.new ≡ (withdrawing (J.accepts board.old.judge) (plan board.old) key).1 }
    ensures judge { board.new.judge ≡ board.old.judge }
{
    board.withdraw(key).is_ok() as u64
}
