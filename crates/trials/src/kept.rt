// A plan that is saved, and loaded on another board.
use crate::asking::{admits_all, board_of, holds};
use board::board::Board;
use judges::demand::Demand;
use model::fault::Numbered;
use model::judge::Judge;
use model::row::Kind;
use placement::best::Best;
use std::test::Fail;
use store::load::load;
use store::save::save;

// The number of the refusal and its place, or zeros, which tests compare.
fn loaded<J: Judge, P>(board: &mut Board<J, P>, image: &[u8]) -> (u8, u16) {
    match load(board, image) {
        Ok(()) => (0, 0),
        Err(fault) => (fault.rule.number(), fault.place),
    }
}

fn saved<J, P>(board: &Board<J, P>, buffer: &mut [u8]) -> usize {
    save(board, buffer).unwrap_or(0)
}

fn damaged(image: [u8; 80], at: usize, byte: u8) -> [u8; 80] {
    let mut other = image;
    if at < 80 {
        other[at] = byte;
    }
    other
}

// Two heads and four records: 4 + 2 * 2 + 18 * 4 = 80 bytes. The first record, of (6, 10, 10), is at byte 8, its kind
// at 12 and its budget at 14. With budget 9 the shares of processor 1 are 9/10 + 3/20, above one.
#[test]
fn saved_and_loaded(rt: HostRuntime) -> Result<(), Fail> {
    let judge = Demand {
        steps: 1,
        refinements: 0,
    };
    let mut first = board_of(rt.alloc(), 2, judge, Best)?;
    assert!(rt; admits_all(&mut first, &[(1, 6, 10), (2, 6, 10), (3, 10, 20)]));
    let mut image = [0; 80];
    assert_eq!(rt; saved(&first, &mut image), 80);
    let mut second = board_of(rt.alloc(), 2, judge, Best)?;
    assert!(rt; admits_all(&mut second, &[(9, 1, 7)]));
    for (at, byte, number, place) in [
        (0, 2, 32, 0),
        (1, 3, 33, 0),
        (8, 5, 35, 1),
        (12, 9, 36, 1),
        (14, 9, 39, 1),
    ] {
        assert_eq!(rt;
            loaded(&mut second, &damaged(image, at, byte)),
            (number, place)
        );
        assert!(rt; holds(&second, 1, &[(9, Kind::Whole, 1, 7, 7)]) && holds(&second, 2, &[]));
    }
    assert_eq!(rt; loaded(&mut second, &image), (0, 0));
    assert!(rt;
        holds(
            &second,
            1,
            &[(1, Kind::Whole, 6, 10, 10), (3, Kind::Tail(1), 3, 3, 20)],
        )
    );
    assert!(rt;
        holds(
            &second,
            2,
            &[(2, Kind::Whole, 6, 10, 10), (3, Kind::Head, 7, 17, 20)],
        )
    );
    Ok(())
}
