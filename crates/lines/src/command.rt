// What a line after the first asks for: its fields, still text of the line, and then its numbers.
ghost use Rattle.std.specs.Prelude.{◌≡◌, [], true, codes, slice_index_or};
ghost use Rattle.lines.specs.Fields.{fields, says};
ghost use Rattle.lines.specs.Commands.{told, worded, counted, command, request_of, admit_of, blank, blank_within};

use crate::fields::{field, has_field, has_fields};
use crate::numbers::read_number;
use model::fault::LineFault;
use model::wanted::Wanted;

// A line may have this many bytes, its newline not counted.
pub const LONGEST_LINE: usize = 80;

// The four fields of an admission; they borrow the line.
#[derive(Clone, Copy)]
pub struct AdmitFields<'a> {
    pub key: &'a [u8],
    pub budget: &'a [u8],
    pub deadline: &'a [u8],
    pub period: &'a [u8],
}

// The fields of a command; they borrow the line.
#[derive(Clone, Copy)]
pub enum Command<'a> {
    Blank,
    Admit(AdmitFields<'a>),
    Leave { key: &'a [u8] },
}

#[derive(Clone, Copy, PartialEq, Eq, Debug)]
pub enum Request {
    Blank,
    Admit(Wanted),
    Leave { key: u32 },
}

impl<'a> Command<'a> {
    // The command of a line: a line too long is told first, then an unknown word, then a wrong field count.
    pub fn read(line: &'a [u8]) -> Result<Command<'a>, LineFault>
        ensures { told result ≡ command line.now }
    {
        if line.len() > LONGEST_LINE {
            return Err(LineFault::Long);
        }
        if !has_field(line, 0) {
            return Ok(Command::Blank);
        }
        match field(line, 0) {
            b"admit" => read_admit(line),
            b"leave" => read_leave(line),
            _ => Err(LineFault::Word),
        }
    }

    // What the command asks for, its fields read as numbers.
    pub fn request(&self) -> Result<Request, LineFault>
        ensures { result ≡ request_of (worded self.now) }
    {
        match self {
            Command::Blank => Ok(Request::Blank),
            Command::Admit(fields) => Ok(Request::Admit(fields.numbers()?)),
            Command::Leave { key } => Ok(Request::Leave {
                key: read_number(key)?,
            }),
        }
    }
}

impl<'a> AdmitFields<'a> {
    // The fields behind the first.
    pub fn of(line: &'a [u8]) -> AdmitFields<'a>
        ensures key { result.key.now ≡ slice_index_or (fields line.now) 1 [] }
        ensures budget { result.budget.now ≡ slice_index_or (fields line.now) 2 [] }
        ensures deadline { result.deadline.now ≡ slice_index_or (fields line.now) 3 [] }
        ensures period { result.period.now ≡ slice_index_or (fields line.now) 4 [] }
    {
        AdmitFields {
            key: field(line, 1),
            budget: field(line, 2),
            deadline: field(line, 3),
            period: field(line, 4),
        }
    }

    // The numbers that the fields write, not judged yet.
    pub fn numbers(&self) -> Result<Wanted, LineFault>
        ensures { result ≡ admit_of self.now.key.now self.now.budget.now self.now.deadline.now self.now.period.now }
    {
        Ok(Wanted {
            key: read_number(self.key)?,
            budget: read_number(self.budget)?,
            deadline: read_number(self.deadline)?,
            period: read_number(self.period)?,
        })
    }
}

// Whether a line asks for nothing. One that is too long is not blank, whatever it holds.
pub fn is_blank(line: &[u8]) -> bool
    ensures { result ≡ blank line.now }
{
    is_blank_within(line, LONGEST_LINE)
}

// The same where a line may have so many bytes.
pub fn is_blank_within(line: &[u8], longest: usize) -> bool
    ensures { result ≡ blank_within longest line.now }
{
    line.len() <= longest && !has_field(line, 0)
}

#[tactic(auto, using(crate::proofs::Words::admit_counted))]
fn read_admit(line: &[u8]) -> Result<Command<'_>, LineFault>
    requires { says (fields line.now) 0 (codes "admit") ≡ true }
    ensures { told result ≡ counted 5 (fields line.now) }
{
    if !has_fields(line, 5) {
        return Err(LineFault::Fields);
    }
    Ok(Command::Admit(AdmitFields::of(line)))
}

#[tactic(auto, using(crate::proofs::Words::leave_counted))]
fn read_leave(line: &[u8]) -> Result<Command<'_>, LineFault>
    requires { says (fields line.now) 0 (codes "leave") ≡ true }
    ensures { told result ≡ counted 2 (fields line.now) }
{
    if !has_fields(line, 2) {
        return Err(LineFault::Fields);
    }
    Ok(Command::Leave {
        key: field(line, 1),
    })
}
