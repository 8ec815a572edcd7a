// Shares of a processor, in parts of SCALE.
ghost use Rattle.std.specs.Prelude.{◌≡◌, ◌*◌, ◌<◌, ◌≤◌, length};
ghost use Rattle.model.specs.Scale.{scale};
ghost use Rattle.model.specs.Share.{ceiling, share, density, densities, densities_fit, alone};

use crate::limits::LONGEST_PERIOD;
use crate::timing::Timing;

// A whole processor: shares, densities and approximate demands are counted in parts of this.
pub const SCALE: u64 = 1_048_576;

impl Timing {
    // Budget by period, rounded up.
    pub fn share(&self) -> u64
        ensures value { result ≡ share scale self.now }
    {
        part(self.budget, self.period)
    }

    // Budget by deadline, rounded up.
    pub fn density(&self) -> u64
        ensures value { result ≡ density scale self.now }
    {
        part(self.budget, self.deadline)
    }
}

// The part of a processor that takes so many ticks of each `of`, rounded up.
fn part(ticks: u32, of: u32) -> u64
    requires { 0 < of }
    ensures { result ≡ ceiling (ticks * scale) of }
{
    (ticks as u64 * SCALE).div_ceil(of as u64)
}

// Whether a list has at most 32 timings, and their densities sum to at most a whole processor.
pub fn densities_fit(list: &[Timing]) -> bool
    ensures { result ≡ densities_fit scale list.now }
{
    list.len() <= 32 && densities(list) <= SCALE
}

fn densities(list: &[Timing]) -> u64
    requires { length list.now ≤ 32 }
    ensures { result ≡ densities scale list.now }
{
    list.iter().map(|x| x.density()).sum()
}

// The longest tail that may stand alone, at most `cap`: beside another timing there is none. What a judge is asked, as it is asked.
pub fn alone(list: &[Timing], period: u32, cap: u32) -> u32
    ensures { result ≡ alone list.now period cap }
{
    if list.is_empty() && period <= LONGEST_PERIOD {
        cap.min(period)
    } else {
        0
    }
}
