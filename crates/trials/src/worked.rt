// Worked examples of docs/rules.md. The rows were worked out from the rules, and compared with what the independent program in
// twin/ answers. A check-point that binds an allowance is given as: what it leaves, by how many tails fall due until then.
use crate::asking::{admits_all, board_of, gathers, holds};
use judges::demand::Demand;
use model::row::Kind::{Head, Tail, Whole};
use placement::best::Best;
use placement::fewest::Fewest;
use std::test::Fail;

// The tail beside (6, 10, 10), for period 20: 8/20 of the processor are free, rounded down M = 7. At 20 + 7 ticks the
// list wants 12 + 0.6 * 7 = 16.2 of 20, which leaves 3; check-point 10 leaves 4 for one tail, 20 leaves 8 for two.
#[test]
fn a_split_leaves(rt: HostRuntime) -> Result<(), Fail> {
    let mut board = board_of(
        rt.alloc(),
        2,
        Demand {
            steps: 1,
            refinements: 0,
        },
        Best,
    )?;
    assert!(rt; admits_all(&mut board, &[(1, 6, 10), (2, 6, 10), (3, 10, 20)]));
    assert!(rt; holds(&board, 1, &[(1, Whole, 6, 10, 10), (3, Tail(1), 3, 3, 20)]));
    assert!(rt; holds(&board, 2, &[(2, Whole, 6, 10, 10), (3, Head, 7, 17, 20)]));
    assert!(rt; gathers(&mut board, 3, &[0, 0]));
    assert!(rt; holds(&board, 1, &[(1, Whole, 6, 10, 10)]));
    assert!(rt; holds(&board, 2, &[(2, Whole, 6, 10, 10)]));
    Ok(())
}

// The tail of 4 is 13/1 at t = 20 on processor 1 (the same on 3, 11/1 on 2); its head goes to 3, which has the larger spare.
// That of 6 is 13/3 = 4 at t = 40 on 2 (on 3 it is 5/2 at t = 27, and 1 has a tail); its head would be late at t = 20 on 1.
// That of 7 is 2/1 at t = 27 on 3, the only processor without a tail.
// Key 4 leaves processors 1 and 3. On 1 there is no tail then, and the only head is of 7: 7/20 + 11/40 is at most one, so
// 7 is gathered, and its tail leaves 3. Only so is there no tail on 3, and the only head is of 6: 7/20 + 7/20 is at most one.
// Where deadlines are periods, the shares decide.
#[test]
fn two_gather_in_turn(rt: HostRuntime) -> Result<(), Fail> {
    let mut board = board_of(
        rt.alloc(),
        3,
        Demand {
            steps: 3,
            refinements: 0,
        },
        Fewest,
    )?;
    assert!(rt;
        admits_all(
            &mut board,
            &[
                (1, 7, 20),
                (2, 9, 20),
                (3, 7, 20),
                (4, 28, 40),
                (5, 9, 40),
                (6, 7, 20),
                (7, 11, 40),
            ],
        )
    );
    assert!(rt;
        holds(
            &board,
            1,
            &[
                (1, Whole, 7, 20, 20),
                (4, Tail(1), 13, 13, 40),
                (7, Head, 9, 38, 40),
            ],
        )
    );
    assert!(rt;
        holds(
            &board,
            3,
            &[
                (3, Whole, 7, 20, 20),
                (4, Head, 15, 27, 40),
                (6, Head, 3, 16, 20),
                (7, Tail(1), 2, 2, 40),
            ],
        )
    );
    assert!(rt; gathers(&mut board, 4, &[7, 0, 6]));
    assert!(rt; holds(&board, 1, &[(1, Whole, 7, 20, 20), (7, Whole, 11, 40, 40)]));
    assert!(rt; holds(&board, 2, &[(2, Whole, 9, 20, 20), (5, Whole, 9, 40, 40)]));
    assert!(rt; holds(&board, 3, &[(3, Whole, 7, 20, 20), (6, Whole, 7, 20, 20)]));
    Ok(())
}

// The tail of 7 is 12/2 at t = 20 on processor 1 (8/2 on 2, 10/2 on 3); that of 1 is 8/2 on 2 (2/2 on 3, and 1 has a tail).
// Key 2 leaves processor 1, where the tail of 7 and the head of 1 stand. 7 whole would make 2/20 + 4/20 + 14/20, which is
// all, and each share is rounded up: above one. 1 whole would fit, 2/20 + 6/20 + 8/20 with 6 of 6 ticks at the first check-point, but
// is not tried.
#[test]
fn no_head_beside_a_tail(rt: HostRuntime) -> Result<(), Fail> {
    let mut board = board_of(
        rt.alloc(),
        3,
        Demand {
            steps: 3,
            refinements: 0,
        },
        Fewest,
    )?;
    assert!(rt;
        admits_all(
            &mut board,
            &[
                (2, 6, 20),
                (5, 12, 20),
                (8, 10, 20),
                (9, 2, 20),
                (7, 14, 20),
                (1, 8, 20),
            ],
        )
    );
    assert!(rt; gathers(&mut board, 2, &[0, 0, 0]));
    assert!(rt;
        holds(
            &board,
            1,
            &[
                (9, Whole, 2, 20, 20),
                (7, Tail(1), 6, 6, 20),
                (1, Head, 4, 16, 20),
            ],
        )
    );
    assert!(rt; holds(&board, 2, &[(5, Whole, 12, 20, 20), (1, Tail(1), 4, 4, 20)]));
    assert!(rt; holds(&board, 3, &[(8, Whole, 10, 20, 20), (7, Head, 8, 14, 20)]));
    Ok(())
}

// The tail of 11 is 11/2 = 5 at t = 20 on processor 4 (4/2, 6/2 and 9/2 on the others); its head goes to 3, of one row as 2
// and with the larger spare. That of 10 is 6/2 on 2 (4/2 on 1, 5/2 on 3); its head goes to 3, since 1 has no room.
// Key 3 leaves processor 3, where the heads of 11 and then 10 stand, of 4/20 each: 10 is the lower key. Whole it makes
// 4/20 + 7/20, with 4 ticks due by 15 and 11 by 20.
#[test]
fn equal_heads(rt: HostRuntime) -> Result<(), Fail> {
    let mut board = board_of(
        rt.alloc(),
        4,
        Demand {
            steps: 3,
            refinements: 0,
        },
        Fewest,
    )?;
    assert!(rt;
        admits_all(
            &mut board,
            &[
                (6, 10, 20),
                (1, 14, 20),
                (3, 11, 20),
                (7, 9, 20),
                (2, 5, 40),
                (5, 6, 20),
                (11, 9, 20),
                (10, 7, 20),
            ],
        )
    );
    assert!(rt;
        holds(
            &board,
            3,
            &[
                (3, Whole, 11, 20, 20),
                (11, Head, 4, 15, 20),
                (10, Head, 4, 17, 20),
            ],
        )
    );
    assert!(rt; gathers(&mut board, 3, &[0, 0, 10, 0]));
    assert!(rt; holds(&board, 2, &[(1, Whole, 14, 20, 20)]));
    assert!(rt; holds(&board, 3, &[(11, Head, 4, 15, 20), (10, Whole, 7, 20, 20)]));
    Ok(())
}
