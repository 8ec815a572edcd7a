// What a host passes.

// A row to be judged: budget, deadline, period.
#[repr(C)]
#[derive(Clone, Copy)]
pub struct Numbers {
    pub budget: u32,
    pub deadline: u32,
    pub period: u32,
}

// What a board is set up with. Its judge is the demand judge and its rule best fit.
#[repr(C)]
#[derive(Clone, Copy)]
pub struct Setting {
    pub processors: u32,
    pub steps: u32,
    pub refinements: u32,
}
