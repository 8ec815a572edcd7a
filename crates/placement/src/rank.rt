// Ranks and their order: whoever brings a kind of rank owes its order and these laws, and needs nothing else.
ghost use Rattle.std.specs.Prelude.{◌≡◌, Bool, true, false};

// A kind of rank. The processor whose rank comes first is chosen.
pub trait Rank: Copy {
    // Whether one rank comes before another.
    ghost first: { Self → Self → Bool };

    fn before(&self, other: &Self) -> bool
        ensures { result ≡ first self.now other.now };

    ghost chain: { (a b c : Self) → first a b ≡ true → first b c ≡ true → first a c ≡ true };

    ghost apart: { (a : Self) → first a a ≡ false };

    // Of two different ranks one comes before the other; by the two laws above, only one does.
    ghost total: { (a b : Self) → first a b ≡ false → first b a ≡ false → a ≡ b };
}
