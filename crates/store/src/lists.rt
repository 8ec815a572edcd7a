// A short list for each of at most eight processors, in place: loading takes no memory. Not a Few of Few: the methods of this crate stand on it.
ghost use Rattle.std.specs.Prelude.{◌≤◌};

use model::row::Row;
use processor::few::Few;

#[derive(Drop)]
pub struct Lists<T> {
    pub lists: [Few<T, 32>; 8],
    pub count: usize,
    ghost eight: { count ≤ 8 },
}

// The numbers of the records along each processor's chain.
pub type Chains = Lists<u16>;

// Each processor's rows.
pub type Plan = Lists<Row>;
