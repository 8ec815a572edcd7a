// Boards, judges and listed orders of numbers at the limits.
use crate::asking::refusal;
use board::board::Board;
use board::setup::SetupError;
use judges::demand::Demand;
use judges::density::Density;
use model::fault::Numbered;
use placement::best::Best;
use placement::listed::Listed;
use std::alloc::Global;

// The number of the refusal, or 0; 99 where memory is wanting: tests compare plain numbers.
fn set_up(heap: Global, processors: u32) -> u8 {
    match Board::new(heap, processors, Density, Best) {
        Ok(_) => 0,
        Err(SetupError::Refused(fault)) => fault.number(),
        Err(SetupError::Memory) => 99,
    }
}

// A board has 1 to 8 processors (1).
#[test]
fn processors(rt: HostRuntime) {
    for (count, number) in [(0, 1), (1, 0), (8, 0), (9, 1), (u32::MAX, 1)] {
        assert_eq!(rt; set_up(rt.alloc(), count), number);
    }
}

// At most 9 steps (2), which is told before the refinements, at most 5 (3).
#[test]
fn steps_and_refinements(rt: HostRuntime) {
    for (steps, refinements, number) in [
        (0, 0, 0),
        (9, 5, 0),
        (10, 5, 2),
        (9, 6, 3),
        (10, 6, 2),
        (u32::MAX, 0, 2),
        (0, u32::MAX, 3),
    ] {
        assert_eq!(rt; refusal(Demand::new(steps, refinements)), number);
    }
}

// An order names 1 to 8 once each (4): not with 7 twice, nor with 0 or 255.
#[test]
fn orders(rt: HostRuntime) {
    assert_eq!(rt; refusal(Listed::new([8, 7, 6, 5, 4, 3, 2, 1])), 0);
    assert_eq!(rt; refusal(Listed::new([1, 2, 3, 4, 5, 6, 7, 7])), 4);
    assert_eq!(rt; refusal(Listed::new([0, 1, 2, 3, 4, 5, 6, 7])), 4);
    assert_eq!(rt; refusal(Listed::new([1, 2, 3, 4, 5, 6, 7, 255])), 4);
}
