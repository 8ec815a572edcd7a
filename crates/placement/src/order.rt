// All eight processors, in an order of one's own.
ghost use Rattle.std.specs.Prelude.{◌≡◌};
ghost use Rattle.placement.specs.Order.{times, once_each};
ghost use Rattle.placement.specs.Ranks.{position};

#[derive(Clone, Copy)]
pub struct Order {
    pub processors: [u8; 8],
}

impl Order {
    // Whether each of 1 to 8 stands in it once.
    pub fn is_complete(&self) -> bool
        ensures { result ≡ once_each 8 self.now.processors }
    {
        self.holds_once_each(8)
    }

    // Whether each of 1 to `last` does.
    fn holds_once_each(&self, last: u8) -> bool
        ensures { result ≡ once_each last self.now.processors }
    {
        (1..=last).all(|processor| self.times(processor) == 1)
    }

    // How often a processor stands in it.
    fn times(&self, processor: u8) -> usize
        ensures { result ≡ times processor self.now.processors }
    {
        self.processors.iter().filter(|x| **x == processor).count()
    }

    // How many processors stand before this one.
    pub fn position(&self, processor: u8) -> u8
        ensures { result ≡ position processor self.now.processors }
    {
        let before = self.processors.iter().position(|x| *x == processor);
        before.unwrap_or(8) as u8
    }
}
