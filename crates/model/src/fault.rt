// Refusals, grouped by who made the fault. Each stands with the number that a host is told.
ghost use Rattle.std.specs.Prelude.{◌≡◌, ℕ};
ghost use Rattle.model.specs.Refusal.{setup_number, request_number, naming_number, line_number};
ghost use Rattle.std.proofs.Common.{rules};

// A refusal that has a number. No two of one kind have the same.
pub trait Numbered {
    ghost numbered: { Self → ℕ };

    fn number(&self) -> u8
        ensures { result ≡ numbered self.now };

    ghost distinct: { (a b : Self) → numbered a ≡ numbered b → a ≡ b };
}

// The integrator, who sets a board up.
#[derive(Clone, Copy, PartialEq, Eq, Debug)]
pub enum SetupFault {
    // The processor count lies outside 1 to 8.
    Processors = 1,
    // More than 9 retained steps.
    Steps = 2,
    // More than 5 refinements.
    Refinements = 3,
    // The listed order does not hold 1 to 8 once each.
    Order = 4,
}

// Who wants a reservation.
#[derive(Clone, Copy, PartialEq, Eq, Debug)]
pub enum RequestFault {
    // The key is 0 or above 65,535.
    Key = 10,
    // The budget is 0.
    Budget = 11,
    // The budget is above the deadline.
    Deadline = 12,
    // The deadline is above the period.
    Period = 13,
    // The period is above 100,000.
    Limit = 14,
    // The key already stands.
    Stands = 15,
    // 64 reservations stand.
    Full = 16,
    // No processor takes it, whole or split.
    NoPlace = 17,
}

// Who names a reservation, or a row.
#[derive(Clone, Copy, PartialEq, Eq, Debug)]
pub enum NamingFault {
    // The key does not stand.
    Key = 20,
    // There is no such processor, or no such row on it.
    Row = 21,
}

// Who types a line.
#[derive(Clone, Copy, PartialEq, Eq, Debug)]
pub enum LineFault {
    // A word is unknown at its place.
    Word = 50,
    // The line has another number of fields.
    Fields = 51,
    // A field is not a number.
    Number = 52,
    // The reply buffer has fewer than 256 bytes.
    Reply = 53,
    // The line has more than 80 bytes.
    Long = 54,
}

impl Numbered for SetupFault {
    ghost numbered = { setup_number };

    ghost distinct = { Prim.search rules };

    fn number(&self) -> u8 {
        *self as u8
    }
}

impl Numbered for RequestFault {
    ghost numbered = { request_number };

    ghost distinct = { Prim.search rules };

    fn number(&self) -> u8 {
        *self as u8
    }
}

impl Numbered for NamingFault {
    ghost numbered = { naming_number };

    ghost distinct = { Prim.search rules };

    fn number(&self) -> u8 {
        *self as u8
    }
}

impl Numbered for LineFault {
    ghost numbered = { line_number };

    ghost distinct = { Prim.search rules };

    fn number(&self) -> u8 {
        *self as u8
    }
}
