// A board: its plan, the judge that it asks and the rule by which it chooses among processors.
use crate::plan::Plan;

// Each public call on a board says that judge and rule stay: of what is lent as `&mut`, a caller knows only what a contract says.
#[derive(Drop)]
pub struct Board<J, P> {
    pub judge: J,
    pub rule: P,
    pub plan: Plan,
}
