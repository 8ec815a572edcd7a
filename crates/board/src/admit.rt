// Admit: the newcomer whole where some processor takes it, else split, or the first refusal that applies. All is decided
// before the first row is written, so a refusal has nothing to undo.
ghost use Rattle.std.specs.Prelude.{◌≡◌, [], ◌∷◌};
ghost use Rattle.board.specs.Plan.{plan, lists};
ghost use Rattle.board.specs.Request.{has_room, Requested};
ghost use Rattle.board.specs.Admission.{made_rows, rows_found};
ghost use Rattle.board.specs.Admit.{decided, admitted, written, after, Room, RoomFor, told};

use crate::admission::{Admission, Placed};
use crate::board::Board;
use crate::plan::Plan;
use model::fault::RequestFault;
use model::judge::SizingJudge;
use model::row::{Kind, Row};
use model::timing::Timing;
use model::wanted::Wanted;
use placement::rule::Placement;
use processor::few::Few;

pub const MOST_RESERVATIONS: usize = 64;

impl<J: SizingJudge, P: Placement> Board<J, P> {
    pub fn admit(&mut self, wanted: Wanted) -> Result<Admission, RequestFault>
        ensures answer { told result ≡ admitted P.Rank.Rank.first (P.ranks self.old.rule) (J.Judge.accepts self.old.judge) (J.allows self.old.judge) (plan self.old) wanted.key wanted.budget wanted.deadline wanted.period }
        ensures after { plan self.new ≡ after (plan self.old) (told result) }
        ensures judge { self.new.judge ≡ self.old.judge }
        ensures rule { self.new.rule ≡ self.old.rule }
    {
        let newcomer = self.plan.request(wanted)?;
        let Some(admission) = self.decide(wanted.key as u16, newcomer) else {
            return Err(RequestFault::NoPlace);
        };
        self.plan.write(&admission);
        Ok(admission)
    }

    // The rows to be made: one where some processor takes the newcomer whole, else those of a split.
    fn decide(&self, key: u16, newcomer: Timing) -> Option<Admission>
        ensures rows { rows_found result ≡ decided P.Rank.Rank.first (P.ranks self.now.rule) (J.Judge.accepts self.now.judge) (J.allows self.now.judge) (plan self.now) key newcomer }
        ensures room { RoomFor (plan self.now) result }
    {
        match self.place(&[], newcomer) {
            Some(processor) => {
                let row = Row {
                    key,
                    kind: Kind::Whole,
                    timing: newcomer,
                };
                Some(Admission::one(Placed { processor, row }))
            }
            None => self.split(key, newcomer),
        }
    }
}

impl Admission {
    // The rows made, with their processors: a whole, or the head and then the tails by part.
    pub fn rows(&self) -> &[Placed]
        ensures { result.now ≡ made_rows self.now }
    {
        self.placed.as_slice()
    }

    fn one(placed: Placed) -> Admission
        ensures { made_rows result ≡ placed ∷ [] }
    {
        let mut only = Few::new(placed);
        only.push(placed);
        Admission { placed: only }
    }
}

impl Plan {
    // The newcomer's timing, or the first refusal that applies.
    fn request(&self, wanted: Wanted) -> Result<Timing, RequestFault>
        ensures { Requested wanted.key wanted.budget wanted.deadline wanted.period (lists self.now) result }
    {
        if wanted.key < 1 || wanted.key > 65535 {
            return Err(RequestFault::Key);
        }
        let newcomer = Timing::new(wanted.budget, wanted.deadline, wanted.period)?;
        if self.stands(wanted.key as u16) {
            return Err(RequestFault::Stands);
        }
        if !self.has_room() {
            return Err(RequestFault::Full);
        }
        Ok(newcomer)
    }

    // Whether one reservation more may stand.
    fn has_room(&self) -> bool
        ensures { result ≡ has_room (lists self.now) }
    {
        self.reservations() < MOST_RESERVATIONS
    }

    // Each row goes to the end of its processor's list.
    fn write(&mut self, admission: &Admission)
        requires { Room (lists self.old) (made_rows admission.now) }
        ensures { lists self.new ≡ written (lists self.old) (made_rows admission.now) }
    {
        for placed in admission.rows() {
            self.processors[placed.processor as usize - 1].add(placed.row);
        }
    }
}
