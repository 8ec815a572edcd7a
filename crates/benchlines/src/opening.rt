// The first line: `board`, processors, steps, refinements, a judge, and `best`, `fewest`, or `listed` and eight numbers.
ghost use Rattle.std.specs.Prelude.{◌≡◌};
ghost use Rattle.benchlines.specs.Openings.{unfit, order_of, rule_of, Settled, Opened};

use crate::settings::{RuleSetting, Settings};
use judges::demand::Demand;
use lines::setup::{JudgeWord, OpeningFault, RuleWord};
use model::fault::SetupFault;
use placement::listed::Listed;

// A placement rule: one that has a word of its own, or an order.
#[derive(Clone, Copy)]
pub enum Rule {
    Named(RuleWord),
    Listed(Listed),
}

// The board that a first line asks for.
#[derive(Clone, Copy)]
pub struct Opening {
    pub processors: u32,
    pub demand: Demand,
    pub judge: JudgeWord,
    pub rule: Rule,
}

// The board that a first line asks for, or the first refusal that applies: its words, its fields, its numbers, its settings.
pub fn read_opening(line: &[u8]) -> Result<Opening, OpeningFault>
    ensures { Opened line.now result }
{
    let settings = Settings::read(line)?;
    Ok(settle(settings)?)
}

// The processor count is checked first, then the steps, the refinements and the order.
fn settle(settings: Settings) -> Result<Opening, SetupFault>
    ensures { Settled settings result }
{
    if is_unfit(settings.processors) {
        return Err(SetupFault::Processors);
    }
    let demand = Demand::new(settings.steps, settings.refinements)?;
    let rule = settle_rule(settings.rule)?;
    Ok(Opening {
        processors: settings.processors,
        demand,
        judge: settings.judge,
        rule,
    })
}

// A board has 1 to 8 processors. It checks that itself, but here a wrong count is told before a wrong judge.
fn is_unfit(processors: u32) -> bool
    ensures { result ≡ unfit processors }
{
    processors < 1 || processors > 8
}

fn settle_rule(rule: RuleSetting) -> Result<Rule, SetupFault>
    ensures { result ≡ rule_of rule }
{
    match rule {
        RuleSetting::Named(word) => Ok(Rule::Named(word)),
        RuleSetting::Listed(numbers) => Ok(Rule::Listed(settle_order(numbers)?)),
    }
}

// The rule of eight numbers, refused unless they are 1 to 8, once each. One above 8 counts as 9.
fn settle_order(numbers: [u32; 8]) -> Result<Listed, SetupFault>
    ensures { result ≡ order_of numbers }
{
    Listed::new(numbers.map(|number| number.min(9) as u8))
}
