// Splitting a newcomer that nobody takes whole. The split is decided as a value: no row is written here.
ghost use Rattle.std.specs.Prelude.{◌≡◌, ◌<◌, ◌≤◌, length};
ghost use Rattle.model.specs.declared.row.Kind.{Kind};
ghost use Rattle.board.specs.Plan.{plan};
ghost use Rattle.board.specs.Split.{placed, served, split_up, split_rows};
ghost use Rattle.board.specs.Admission.{made_rows, rows_found};

use crate::admission::{Admission, Placed};
use crate::board::Board;
use crate::cut::Cut;
use model::judge::SizingJudge;
use model::row::{Kind, Row};
use model::timing::Timing;
use placement::rule::Placement;
use processor::few::Few;

impl<J: SizingJudge, P: Placement> Board<J, P> {
    // Sets tails until the head finds a place. The head needs a processor of its own, so there are fewer tails than processors.
    pub fn split(&self, key: u16, newcomer: Timing) -> Option<Admission>
        ensures { rows_found result ≡ split_up P.Rank.Rank.first (P.ranks self.now.rule) (J.Judge.accepts self.now.judge) (J.allows self.now.judge) (plan self.now) key newcomer }
    {
        let mut cuts: Few<Cut, 8> = Few::new(Cut {
            processor: 0,
            timing: newcomer,
        });
        let mut head = newcomer;
        for _ in 1..self.plan.processors.len() {
            let (cut, rest) = self.next_cut(cuts.as_slice(), head)?;
            cuts.push(cut);
            head = rest;
            if let Some(processor) = self.place(cuts.as_slice(), head) {
                return Some(split_rows(key, processor, head, cuts.as_slice()));
            }
        }
        None
    }
}

// The head's row, then the tails' by part: the tail set last has part 1.
fn split_rows(key: u16, processor: u8, head: Timing, cuts: &[Cut]) -> Admission
    requires { length cuts.now ≤ 7 }
    ensures { made_rows result ≡ split_rows key processor head cuts.now }
{
    let first = Placed {
        processor,
        row: Row {
            key,
            kind: Kind::Head,
            timing: head,
        },
    };
    let mut placed = Few::new(first);
    placed.push(first);
    // By place: which tail that is, `served` says in a contract of its own, and an edit of it is refused there.
    for i in 0..cuts.len() {
        placed.push(tail_row(key, i as u8 + 1, served(cuts, i)));
    }
    Admission { placed }
}

// The tail at a place in serving order, counted from 0: the one set last is served first.
fn served(cuts: &[Cut], place: usize) -> Cut
    requires { place < length cuts.now }
    ensures { result ≡ served cuts.now place result }
{
    cuts[cuts.len() - 1 - place]
}

fn tail_row(key: u16, part: u8, cut: Cut) -> Placed
    ensures { result ≡ placed key cut.processor (Kind.Tail part) cut.timing }
{
    let row = Row {
        key,
        kind: Kind::Tail(part),
        timing: cut.timing,
    };
    Placed {
        processor: cut.processor,
        row,
    }
}
