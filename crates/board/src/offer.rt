// The longest tail that a processor offers for a newcomer.
ghost use Rattle.std.specs.Prelude.{◌≤◌};

#[derive(Clone, Copy)]
pub(crate) struct Offer {
    pub(crate) processor: u8,
    pub(crate) budget: u32,
    ghost some: { 1 ≤ budget },
}
