// Wadispoon: admission of processor reservations, for a host that serves them.
//
// A host reads its settings once, by `Sizes::new`, and sets up a `Board` with a judge and a placement rule; all memory
// is taken then. For two processors, the demand judge and best fit it asks `Sizes::new(2, 1, 0)` and then
// `sizes.board(heap, sizes.demand, Best)`. From there on it calls `admit` with what is wanted, a key, a
// budget, a deadline and a period, which answers the rows that were made and on which processors, or why not; `withdraw` with a key, which
// answers what was gathered; and `look` with a processor and a position. `save` and `load` keep a plan as bytes. A refusal changes
// nothing. `run` makes a whole list of calls from set-up on; its contract is the promise that nobody is late.
#![tactic(auto)]

pub mod setting_up;
pub mod sizes;

pub use board::admission::{Admission, Placed};
pub use board::board::Board;
pub use board::gathered::Gathered;
pub use board::plan::Plan;
pub use board::setup::SetupError;
pub use judges::demand::Demand;
pub use judges::density::Density;
pub use judges::either::Either;
pub use model::fault::{LineFault, NamingFault, Numbered, RequestFault, SetupFault};
pub use model::judge::{Judge, SizingJudge};
pub use model::row::{Kind, Row};
pub use model::timing::Timing;
pub use model::wanted::Wanted;
pub use placement::best::Best;
pub use placement::fewest::Fewest;
pub use placement::listed::Listed;
pub use placement::rule::Placement;
pub use promise::call::{Answer, Call};
pub use promise::history::{Outcome, make, run};
pub use store::fault::{BufferFault, BufferRule};
pub use store::load::load;
pub use store::save::save;
