// A plan: 1 to 8 processors, each with its rows.
ghost use Rattle.std.specs.Prelude.{◌≤◌, vec_len};

use processor::rows::Processor;

#[derive(Drop)]
pub struct Plan {
    pub processors: Vec<Processor>,
    ghost some: { 1 ≤ vec_len processors },
    ghost eight: { vec_len processors ≤ 8 },
}
