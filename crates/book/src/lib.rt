// The book: its members, the auction of their lots, the seven seats that a loss fills, and the ten calls.
#![tactic(auto)]

pub mod answers;
pub mod book;
pub mod calls;
pub mod laws;
pub mod phase;
pub mod seats;
