// Which reservations stand.
ghost use Rattle.std.specs.Prelude.{◌≡◌};
ghost use Rattle.board.specs.Plan.{lists};
ghost use Rattle.board.specs.Keys.{stands, reservations};

use crate::plan::Plan;

impl Plan {
    // Whether a reservation of this key stands.
    pub fn stands(&self, key: u16) -> bool
        ensures { result ≡ stands key (lists self.now) }
    {
        self.processors.iter().any(|processor| processor.holds(key))
    }

    // How many reservations stand.
    pub fn reservations(&self) -> usize
        ensures { result ≡ reservations (lists self.now) }
    {
        self.processors
            .iter()
            .map(|processor| processor.owners())
            .sum()
    }
}
