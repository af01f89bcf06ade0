// A lot: its bids, the price that they make, what each bid gets, and what a member's bids earn it.
#![tactic(auto)]

pub mod allocations;
pub mod bid;
pub mod bids;
pub mod class;
pub mod figures;
mod kind_names;
pub mod pri;
#[cfg(test)]
mod tests;
mod texts;
