// What a judge is: whoever brings one owes its meaning and these laws, and needs nothing else.
ghost use Rattle.std.specs.Prelude.{◌≡◌, ℕ, ◌<◌, ◌≤◌, Bool, true, List, [], ◌∷◌, ◌++◌, length};
ghost use Rattle.model.specs.declared.timing.Timing.{Timing};
ghost use Rattle.model.specs.Scale.{scale};
ghost use Rattle.model.specs.Share.{densities};
ghost use Rattle.model.specs.Demand.{demand};
ghost use Rattle.model.specs.Within.{Within};

use crate::timing::Timing as Judged;

// Says of a list of timings whether one processor can serve them all in time.
pub trait Judge {
    // The lists that get a yes.
    ghost accepts: { Self → List Timing → Bool };

    fn judge(&self, list: &[Judged]) -> bool
        ensures { result ≡ accepts self.now list.now };

    // A yes holds for every alignment of the releases: the work due within t ticks fits t ticks.
    ghost sound: { (j : Self) (l : List Timing) → accepts j l ≡ true → (t : ℕ) → demand l t ≤ t };

    // A list whose densities sum to at most one gets a yes.
    ghost dense: { (j : Self) (l : List Timing) → length l ≤ 32 → densities scale l ≤ scale → accepts j l ≡ true };

    // A yes stays a yes when timings are taken away or reordered.
    ghost fewer: { (j : Self) (m l : List Timing) → Within m l → accepts j l ≡ true → accepts j m ≡ true };

    // A longer list than 32 gets no.
    ghost few: { (j : Self) (l : List Timing) → accepts j l ≡ true → length l ≤ 32 };
}

// A judge that also says how long a tail, whose budget is its deadline, may be added to a list.
pub trait SizingJudge: Judge {
    // The longest tail that is offered for a list, a period and a cap: three arguments, since a host's judge would take a struct of them apart.
    ghost allows: { Self → List Timing → ℕ → ℕ → ℕ };

    fn allowance(&self, list: &[Judged], period: u32, cap: u32) -> u32
        ensures { result ≡ allows self.now list.now period cap };

    ghost capped: { (j : Self) (l : List Timing) (t c : ℕ) → allows j l t c ≤ c };

    ghost periodic: { (j : Self) (l : List Timing) (t c : ℕ) → allows j l t c ≤ t };

    // Nothing is offered for a period above the limit, or beside more than 31 timings.
    ghost limited: { (j : Self) (l : List Timing) (t c : ℕ) → 0 < allows j l t c → t ≤ 100000 };

    ghost roomy: { (j : Self) (l : List Timing) (t c : ℕ) → 0 < allows j l t c → length l ≤ 31 };

    // What is offered is accepted: the list with that tail gets the judge's yes.
    ghost taken: { (j : Self) (l : List Timing) (x : Timing) (c : ℕ) → x.budget ≡ allows j l x.period c → x.deadline ≡ allows j l x.period c → Self.Judge.accepts j (l ++ (x ∷ [])) ≡ true };
}
