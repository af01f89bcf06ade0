// What every layer above stands on: units of money and of lots, the numbered refusals, and the share rule.
#![tactic(auto)]

pub mod refusal;
pub mod rule;
#[cfg(test)]
mod tests;
pub mod units;
