// A reservation that is wanted: its key, budget, deadline and period, not judged yet. A host passes it as it lies in memory.
#[repr(C)]
#[derive(Clone, Copy, PartialEq, Eq, Debug)]
pub struct Wanted {
    pub key: u32,
    pub budget: u32,
    pub deadline: u32,
    pub period: u32,
}
