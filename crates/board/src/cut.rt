// A tail that is set while a newcomer is split: the processor that takes it, and its timing.
use model::timing::Timing;

#[derive(Clone, Copy)]
pub struct Cut {
    pub processor: u8,
    pub timing: Timing,
}
