// The language of a console: which command a line is, or why it is none.
#![tactic(auto)]

pub mod command;
pub mod fault;
pub mod laws;
mod opening;
pub mod question;
mod reading;
