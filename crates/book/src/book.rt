// The book: what it holds.
use crate::phase::Phase;
use crate::seats::Seats;
use auction::auction::Auction;
use auction::roster::Roster;
use resource::resource::Resource;
use share::units::Dollars;

pub mod bidding;
pub mod charging;
pub mod making;
pub mod questions;
pub mod resting;
pub mod running;
mod standing;

// A book over a house: the members by number, the auction and its pools, the house's resource, and the net loss.
// The phase is a field beside the others: members and seats are asked in every phase, so where there is no auction it has no lots, and outside Charging the seats are idle and the loss is 0.
#[derive(Drop)]
pub struct Book<R: Resource> {
    phase: Phase,
    members: Roster,
    auction: Auction,
    seats: Seats,
    house: R,
    loss: Dollars,
}
