// Resources: money that can stand for a loss up to its capacity.
#![tactic(auto)]

pub mod deposit;
pub mod pool;
pub mod resource;
