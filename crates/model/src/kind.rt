// What a row's kind says.
ghost use Rattle.std.specs.Prelude.{◌≡◌, ◌≤◌, length, Some};
ghost use Rattle.model.specs.Row.{is_tail, part, kind_word, due};

use crate::row::{Kind, Row};
use std::fmt;

impl Kind {
    pub fn is_tail(&self) -> bool
        ensures { result ≡ is_tail self.now }
    {
        matches!(self, Kind::Tail(_))
    }

    // The part that a row is of its reservation: a tail's number, and 0, the first part, for a whole or a head.
    pub fn part(&self) -> u8
        ensures { result ≡ part self.now }
    {
        match self {
            Kind::Whole | Kind::Head => 0,
            Kind::Tail(part) => *part,
        }
    }

    // How it is written in replies.
    pub fn word(&self) -> &'static str
        ensures text { result.now ≡ kind_word self.now }
        ensures short { length result.now ≤ 5 }
    {
        match self {
            Kind::Whole => "whole",
            Kind::Head => "head",
            Kind::Tail(_) => "tail",
        }
    }
}

impl fmt::Display for Kind {
    ghost output = { λ k. Some (kind_word k) };

    fn fmt<W: fmt::Write>(&self, f: &mut fmt::Formatter<W>) -> fmt::Result {
        f.write_str(self.word())
    }
}

impl Row {
    // What it adds to its reservation's deadline: a tail its budget, a head its deadline.
    pub fn due(&self) -> u32
        ensures value { result ≡ due self.now }
        ensures bound { result ≤ 100000 }
    {
        if self.kind.is_tail() {
            self.timing.budget
        } else {
            self.timing.deadline
        }
    }
}
