// The judged part of a row: a budget, due within a deadline of its release, releases at least a period apart.
ghost use Rattle.std.specs.Prelude.{◌≤◌};

#[derive(Clone, Copy, PartialEq, Eq, Debug)]
pub struct Timing {
    pub budget: u32,
    pub deadline: u32,
    pub period: u32,
    ghost some: { 1 ≤ budget },
    ghost fits: { budget ≤ deadline },
    ghost constrained: { deadline ≤ period },
    ghost short: { period ≤ 100000 },
}
