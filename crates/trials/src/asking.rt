// Calls of a board, answered by plain numbers that a test can compare.
use board::board::Board;
use model::fault::Numbered;
use model::judge::{Judge, SizingJudge};
use model::row::{Kind, Row};
use model::wanted::Wanted;
use placement::rule::Placement;
use std::alloc::Global;
use std::test::Fail;

// A row as docs/rules.md writes it: its key, what it is of its reservation, and (budget, deadline, period).
pub type Shown = (u16, Kind, u32, u32, u32);

pub(crate) fn board_of<J: Drop, P: Drop>(
    heap: Global,
    processors: u32,
    judge: J,
    rule: P,
) -> Result<Board<J, P>, Fail> {
    Board::new(heap, processors, judge, rule).map_err(|_| Fail::new("no board"))
}

// The number of the refusal, or 0: tests compare plain numbers.
pub(crate) fn refusal<T: Drop, F: Numbered + Drop>(answer: Result<T, F>) -> u8 {
    match answer {
        Ok(_) => 0,
        Err(fault) => fault.number(),
    }
}

// That of an admission.
pub(crate) fn admitted<J: SizingJudge, P: Placement>(
    board: &mut Board<J, P>,
    key: u32,
    budget: u32,
    deadline: u32,
    period: u32,
) -> u8 {
    refusal(board.admit(Wanted {
        key,
        budget,
        deadline,
        period,
    }))
}

// Whether all these are admitted, one after the other: a key, a budget and a period, which is the deadline too.
pub(crate) fn admits_all<J: SizingJudge, P: Placement>(
    board: &mut Board<J, P>,
    asked: &[(u32, u32, u32)],
) -> bool {
    asked.iter().all(|(key, budget, period)| admitted(board, *key, *budget, *period, *period) == 0)
}

// Whether the key is withdrawn and just these are gathered, on the processors in turn.
pub(crate) fn gathers<J: Judge, P>(board: &mut Board<J, P>, key: u32, keys: &[u16]) -> bool {
    board
        .withdraw(key)
        .is_ok_and(|gathered| gathered.keys.as_slice() == keys)
}

// Whether a processor holds these rows in this order, and no others.
pub(crate) fn holds<J, P>(board: &Board<J, P>, processor: u32, rows: &[Shown]) -> bool {
    let Ok(count) = u32::try_from(rows.len()) else {
        return false;
    };
    rows.iter()
        .zip(1..=count)
        .all(|(row, position)| shows(board, processor, position, row))
        && refusal(board.look(processor, count.saturating_add(1))) == 21
}

fn shows<J, P>(board: &Board<J, P>, processor: u32, position: u32, row: &Shown) -> bool {
    board
        .look(processor, position)
        .is_ok_and(|found| shown(found) == *row)
}

fn shown(row: Row) -> Shown {
    (
        row.key,
        row.kind,
        row.timing.budget,
        row.timing.deadline,
        row.timing.period,
    )
}
