// The demand judge's setting. demand_judge.rt has its judgement.
ghost use Rattle.std.specs.Prelude.{◌≤◌};

#[derive(Clone, Copy)]
pub struct Demand {
    // How many steps of a timing's demand are counted exactly before the line begins.
    pub steps: u8,
    // How often an allowance is worked out again from the result before.
    pub refinements: u8,
    ghost stepped: { steps ≤ 9 },
    ghost refined: { refinements ≤ 5 },
}
