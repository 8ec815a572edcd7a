// What a first line writes down: its words and its numbers, which are not judged yet.
ghost use Rattle.std.specs.Prelude.{◌≡◌, [], slice_index_or};
ghost use Rattle.lines.specs.Fields.{fields};
ghost use Rattle.lines.specs.Setups.{rule_word};
ghost use Rattle.benchlines.specs.Openings.{unknown_word, wanted};
ghost use Rattle.benchlines.specs.Settings.{settings_of, settings_among, rule_among};

use crate::numbers::read_numbers;
use crate::task::LONGEST_LINE;
use lines::fields::{field, has_field, has_fields, same};
use lines::setup::{JudgeWord, RuleWord};
use model::fault::LineFault;

// The rule of a first line: its word, or the numbers of an order.
#[derive(Clone, Copy)]
pub(crate) enum RuleSetting {
    Named(RuleWord),
    Listed([u32; 8]),
}

#[derive(Clone, Copy)]
pub(crate) struct Settings {
    pub(crate) processors: u32,
    pub(crate) steps: u32,
    pub(crate) refinements: u32,
    pub(crate) judge: JudgeWord,
    pub(crate) rule: RuleSetting,
}

impl Settings {
    // A line too long is told first, then an unknown word, then a wrong count, then a field that is no number.
    pub(crate) fn read(line: &[u8]) -> Result<Settings, LineFault>
        ensures { result ≡ settings_of line.now }
    {
        if line.len() > LONGEST_LINE {
            return Err(LineFault::Long);
        }
        if has_unknown_word(line) {
            return Err(LineFault::Word);
        }
        if !has_fields(line, wanted(line)) {
            return Err(LineFault::Fields);
        }
        Settings::read_fields(line)
    }

    fn read_fields(line: &[u8]) -> Result<Settings, LineFault>
        ensures { result ≡ settings_among (fields line.now) }
    {
        let [processors, steps, refinements] = read_numbers::<3>(line, 1)?;
        let rule = RuleSetting::read(line)?;
        let judge = JudgeWord::read(field(line, 4)).ok_or(LineFault::Word)?;
        Ok(Settings {
            processors,
            steps,
            refinements,
            judge,
            rule,
        })
    }
}

impl RuleSetting {
    fn read(line: &[u8]) -> Result<RuleSetting, LineFault>
        ensures { result ≡ rule_among (fields line.now) (rule_word (slice_index_or (fields line.now) 5 [])) }
    {
        match RuleWord::read(field(line, 5)) {
            Some(word) => Ok(RuleSetting::Named(word)),
            None => Ok(RuleSetting::Listed(read_numbers(line, 6)?)),
        }
    }
}

// Whether a word that stands is unknown at its place; a missing one is a matter of the field count. As on the console but for `listed`, which a
// shared function would have to be told.
fn has_unknown_word(line: &[u8]) -> bool
    ensures { result ≡ unknown_word (fields line.now) }
{
    (has_field(line, 0) && !same(field(line, 0), b"board"))
        || (has_field(line, 4) && JudgeWord::read(field(line, 4)).is_none())
        || (has_field(line, 5)
            && RuleWord::read(field(line, 5)).is_none()
            && !same(field(line, 5), b"listed"))
}

// Six fields, and eight more for an order.
fn wanted(line: &[u8]) -> usize
    ensures { result ≡ wanted (fields line.now) }
{
    if same(field(line, 5), b"listed") {
        14
    } else {
        6
    }
}
