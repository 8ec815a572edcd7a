// What the first line sets up: `board`, processors, steps, refinements, a judge and a placement rule.
ghost use Rattle.std.specs.Prelude.{◌≡◌};
ghost use Rattle.lines.specs.Fields.{fields};
ghost use Rattle.std.proofs.Common.{rules};
ghost use Rattle.lines.specs.Setups.{judge_word, rule_word, unknown_word, settings, setup_of, opening_number};

use crate::command::LONGEST_LINE;
use crate::fields::{field, has_field, has_fields, same};
use crate::numbers::read_number;
use model::fault::{LineFault, Numbered, SetupFault};

#[derive(Clone, Copy, PartialEq, Eq, Debug)]
pub enum JudgeWord {
    Density,
    Demand,
    Either,
}

#[derive(Clone, Copy, PartialEq, Eq, Debug)]
pub enum RuleWord {
    Best,
    Fewest,
}

// The settings of a board, its numbers not checked yet.
#[derive(Clone, Copy, PartialEq, Eq, Debug)]
pub struct Setup {
    pub processors: u32,
    pub steps: u32,
    pub refinements: u32,
    pub judge: JudgeWord,
    pub rule: RuleWord,
}

// Why a first line is refused: as a line, or for a number that it asks for.
#[derive(Clone, Copy, PartialEq, Eq, Debug)]
pub enum OpeningFault {
    Line(LineFault),
    Setup(SetupFault),
}

impl From<LineFault> for OpeningFault {
    ghost use Rattle.lines.specs.declared.setup.OpeningFault.{OpeningFault};

    ghost from_gives = { λ fault refusal. refusal ≡ OpeningFault.Line fault };

    fn from(fault: LineFault) -> OpeningFault {
        OpeningFault::Line(fault)
    }
}

impl From<SetupFault> for OpeningFault {
    ghost use Rattle.lines.specs.declared.setup.OpeningFault.{OpeningFault};

    ghost from_gives = { λ fault refusal. refusal ≡ OpeningFault.Setup fault };

    fn from(fault: SetupFault) -> OpeningFault {
        OpeningFault::Setup(fault)
    }
}

impl Numbered for OpeningFault {
    ghost numbered = { opening_number };

    ghost distinct = { Prim.search rules };

    fn number(&self) -> u8 {
        match self {
            OpeningFault::Line(fault) => fault.number(),
            OpeningFault::Setup(fault) => fault.number(),
        }
    }
}

impl Setup {
    // The settings of the first line that is not blank.
    pub fn read(line: &[u8]) -> Result<Setup, LineFault>
        ensures { result ≡ setup_of line.now }
    {
        if line.len() > LONGEST_LINE {
            return Err(LineFault::Long);
        }
        if has_unknown_word(line) {
            return Err(LineFault::Word);
        }
        if !has_fields(line, 6) {
            return Err(LineFault::Fields);
        }
        read_settings(line)
    }
}

#[tactic(auto, using(crate::proofs::Words::reads_density, crate::proofs::Words::reads_demand, crate::proofs::Words::reads_either))]
impl JudgeWord {
    // An `Option`: the error of a `TryFrom` would say no more than none.
    pub fn read(word: &[u8]) -> Option<JudgeWord>
        ensures { result ≡ judge_word word.now }
    {
        match word {
            b"density" => Some(JudgeWord::Density),
            b"demand" => Some(JudgeWord::Demand),
            b"either" => Some(JudgeWord::Either),
            _ => None,
        }
    }
}

#[tactic(auto, using(crate::proofs::Words::reads_fewest))]
impl RuleWord {
    // An `Option`, as for a judge's word.
    pub fn read(word: &[u8]) -> Option<RuleWord>
        ensures { result ≡ rule_word word.now }
    {
        match word {
            b"best" => Some(RuleWord::Best),
            b"fewest" => Some(RuleWord::Fewest),
            _ => None,
        }
    }
}

// Whether a word that stands is unknown at its place; a missing one is a matter of the field count.
fn has_unknown_word(line: &[u8]) -> bool
    ensures { result ≡ unknown_word (fields line.now) }
{
    (has_field(line, 0) && !same(field(line, 0), b"board"))
        || (has_field(line, 4) && JudgeWord::read(field(line, 4)).is_none())
        || (has_field(line, 5) && RuleWord::read(field(line, 5)).is_none())
}

fn read_settings(line: &[u8]) -> Result<Setup, LineFault>
    ensures { result ≡ settings (fields line.now) }
{
    Ok(Setup {
        processors: read_number(field(line, 1))?,
        steps: read_number(field(line, 2))?,
        refinements: read_number(field(line, 3))?,
        judge: JudgeWord::read(field(line, 4)).ok_or(LineFault::Word)?,
        rule: RuleWord::read(field(line, 5)).ok_or(LineFault::Word)?,
    })
}
