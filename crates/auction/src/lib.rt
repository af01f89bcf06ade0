// An auction: its members and lots, what each member must bid for, its classes, and the weights that they earn it.
#![tactic(auto)]

pub mod auction;
pub mod earned;
pub mod filling;
pub mod laws;
pub mod lots;
pub mod member;
pub mod offer;
pub mod place;
pub mod roster;
pub mod terms;
