// The either judge of two that differ, and the rules that choose a processor.
use crate::asking::{admits_all, board_of, holds};
use judges::demand::Demand;
use judges::density::Density;
use judges::either::Either;
use model::judge::{Judge, SizingJudge};
use model::row::Kind;
use model::timing::Timing;
use placement::fewest::Fewest;
use placement::listed::Listed;
use std::test::Fail;

const COARSE: Demand = Demand {
    steps: 0,
    refinements: 0,
};

const FINE: Demand = Demand {
    steps: 1,
    refinements: 0,
};

// At t = 8 the list wants 5 and, of (3, 3, 10), exactly 3; without steps 3 + 0.3 * 5 = 4.5. The densities are 1 + 5/8.
#[test]
fn either_says_yes(rt: HostRuntime) {
    let list = [
        Timing {
            budget: 3,
            deadline: 3,
            period: 10,
        },
        Timing {
            budget: 5,
            deadline: 8,
            period: 10,
        },
    ];
    assert!(rt;
        !Either {
            first: COARSE,
            second: Density,
        }
        .judge(&list)
    );
    assert!(rt;
        Either {
            first: COARSE,
            second: FINE,
        }
        .judge(&list)
    );
    assert!(rt;
        Either {
            first: FINE,
            second: COARSE,
        }
        .judge(&list)
    );
}

// Beside (5, 10, 10) a tail of period 20 is at most 3 without steps and 5 with one; density offers none.
#[test]
fn either_sizes(rt: HostRuntime) {
    let list = [Timing {
        budget: 5,
        deadline: 10,
        period: 10,
    }];
    assert_eq!(rt;
        Either {
            first: COARSE,
            second: Density,
        }
        .allowance(&list, 20, 9),
        3
    );
    assert_eq!(rt;
        Either {
            first: COARSE,
            second: FINE,
        }
        .allowance(&list, 20, 9),
        5
    );
    assert_eq!(rt;
        Either {
            first: FINE,
            second: COARSE,
        }
        .allowance(&list, 20, 9),
        5
    );
    assert_eq!(rt;
        Either {
            first: Density,
            second: COARSE,
        }
        .allowance(&list, 20, 2),
        2
    );
}

// The order names 8 first, which this board has not, then 3, 1, 2. Two of 10/16 do not share a processor; 10/16 and 4/16 do.
#[test]
fn listed_on_three(rt: HostRuntime) -> Result<(), Fail> {
    let mut board = board_of(
        rt.alloc(),
        3,
        FINE,
        Listed::new([8, 3, 1, 2, 4, 5, 6, 7]).ok().ok_or("order")?,
    )?;
    assert!(rt;
        admits_all(
            &mut board,
            &[(1, 10, 16), (2, 10, 16), (3, 4, 16), (4, 10, 16)],
        )
    );
    assert!(rt;
        holds(
            &board,
            3,
            &[(1, Kind::Whole, 10, 16, 16), (3, Kind::Whole, 4, 16, 16)],
        )
    );
    assert!(rt; holds(&board, 1, &[(2, Kind::Whole, 10, 16, 16)]));
    assert!(rt; holds(&board, 2, &[(4, Kind::Whole, 10, 16, 16)]));
    Ok(())
}

// The first three take a processor each. Then 2 and 3 have the larger spare, and of these 2 the lower number; then 3; then 1 has
// the fewest rows.
#[test]
fn fewest_on_three(rt: HostRuntime) -> Result<(), Fail> {
    let mut board = board_of(rt.alloc(), 3, FINE, Fewest)?;
    assert!(rt;
        admits_all(
            &mut board,
            &[
                (1, 8, 16),
                (2, 4, 16),
                (3, 4, 16),
                (4, 2, 16),
                (5, 2, 16),
                (6, 2, 16),
            ],
        )
    );
    assert!(rt;
        holds(
            &board,
            1,
            &[(1, Kind::Whole, 8, 16, 16), (6, Kind::Whole, 2, 16, 16)],
        )
    );
    assert!(rt;
        holds(
            &board,
            2,
            &[(2, Kind::Whole, 4, 16, 16), (4, Kind::Whole, 2, 16, 16)],
        )
    );
    assert!(rt;
        holds(
            &board,
            3,
            &[(3, Kind::Whole, 4, 16, 16), (5, Kind::Whole, 2, 16, 16)],
        )
    );
    Ok(())
}
