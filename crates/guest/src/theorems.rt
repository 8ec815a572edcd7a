// What is true of the guest's judge and rule besides the laws, each stated as the contract of a function.
ghost use Rattle.guest.specs.Placed.{OddOnesFirst};
ghost use Rattle.guest.specs.Theorems.{OffersMost, BoundReached};

// Beside any timing, no tail at all would get a yes.
pub fn offers_most() -> u8
    ensures { OffersMost }
{
    0
}

// The spare share of a list that gets a yes can be -31, the least that the laws allow.
pub fn bound_reached() -> u8
    ensures { BoundReached }
{
    0
}

// On a board that keeps the promise, an even processor is taken only where no odd one could be.
pub fn odd_ones_first() -> u8
    ensures { OddOnesFirst }
{
    0
}
