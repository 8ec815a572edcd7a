// Numbers at the limits.
use crate::asking::{admitted, board_of, refusal};
use judges::demand::Demand;
use judges::density::Density;
use placement::best::Best;
use std::test::Fail;

const DEMAND: Demand = Demand {
    steps: 1,
    refinements: 0,
};

// Asked in this order: the key, from 1 to 65,535 (10); a budget of at least 1 (11), at most the deadline (12), which is at most the period (13), which
// is at most 100,000 (14); a key that stands (15). So all numbers too large is a bad key (10), and with a good key a long period (14), since the
// budget is then not above the deadline, nor that above the period. (5, 4, 3) is 5 above 4 before 4 above 3. What is left fits an empty processor.
#[test]
fn requests(rt: HostRuntime) -> Result<(), Fail> {
    let mut board = board_of(rt.alloc(), 8, DEMAND, Best)?;
    let top = u32::MAX;
    let asked: [(u32, u32, u32, u32, u8); 16] = [
        (0, 1, 2, 4, 10),
        (65535, 1, 2, 4, 0),
        (65536, 1, 2, 4, 10),
        (top, top, top, top, 10),
        (1, 0, 0, 0, 11),
        (1, 0, top, top, 11),
        (1, 5, 4, 3, 12),
        (1, top, 1, 1, 12),
        (1, 4, 5, 3, 13),
        (1, 1, top, 1, 13),
        (1, 1, 1, 100000, 0),
        (2, 1, 1, 100001, 14),
        (2, 1, 1, top, 14),
        (2, top, top, top, 14),
        (65535, top, top, top, 14),
        (65535, 1, 2, 4, 15),
    ];
    for (key, budget, deadline, period, number) in asked {
        assert_eq!(rt; admitted(&mut board, key, budget, deadline, period), number);
    }
    Ok(())
}

// One row stands, the first on processor 1 of two: every other place is none (21). A key that is out of range does not stand (20), nor does one that
// has left.
#[test]
fn names(rt: HostRuntime) -> Result<(), Fail> {
    let mut board = board_of(rt.alloc(), 2, DEMAND, Best)?;
    assert_eq!(rt; admitted(&mut board, 65535, 1, 2, 4), 0);
    for (processor, position, number) in [
        (1, 1, 0),
        (0, 1, 21),
        (1, 0, 21),
        (1, 2, 21),
        (2, 1, 21),
        (3, 1, 21),
        (u32::MAX, 1, 21),
        (1, u32::MAX, 21),
        (u32::MAX, u32::MAX, 21),
    ] {
        assert_eq!(rt; refusal(board.look(processor, position)), number);
    }
    for (key, number) in [
        (0, 20),
        (65536, 20),
        (u32::MAX, 20),
        (65535, 0),
        (65535, 20),
    ] {
        assert_eq!(rt; refusal(board.withdraw(key)), number);
    }
    Ok(())
}

// A processor holds 32 rows. 33 of 64 parts would fit, so it is the free row that is wanting for the 33rd, whole (17) and for any part of it.
#[test]
fn rows_of_a_processor(rt: HostRuntime) -> Result<(), Fail> {
    let mut board = board_of(rt.alloc(), 1, DEMAND, Best)?;
    for key in 1..=33 {
        assert_eq!(rt;
            admitted(&mut board, key, 1, 64, 64),
            if key <= 32 { 0 } else { 17 }
        );
    }
    assert_eq!(rt; refusal(board.look(1, 32)), 0);
    assert_eq!(rt; refusal(board.look(1, 33)), 21);
    Ok(())
}

// A board holds 64 reservations. Best fit fills a processor before the next: 32 rows on 1, 32 on 2, and six are empty still when the 65th is refused (16).
#[test]
fn reservations(rt: HostRuntime) -> Result<(), Fail> {
    let mut board = board_of(rt.alloc(), 8, Density, Best)?;
    for key in 1..=65 {
        assert_eq!(rt;
            admitted(&mut board, key, 1, 64, 64),
            if key <= 64 { 0 } else { 16 }
        );
    }
    assert_eq!(rt; refusal(board.look(2, 32)), 0);
    assert_eq!(rt; refusal(board.look(3, 1)), 21);
    Ok(())
}
