#![tactic(auto)]

// Boards that are run: the limits, and worked examples of docs/rules.md with values worked out by hand.
#[cfg(test)]
mod asking;
#[cfg(test)]
mod chosen;
#[cfg(test)]
mod kept;
#[cfg(test)]
mod limits;
#[cfg(test)]
mod settings;
#[cfg(test)]
mod worked;
