// A member of the clearing house.
use share::units::Dollars;

// What a member has in the book: its fund, and what it can be assessed for beyond it.
#[derive(Clone, Copy, PartialEq, Eq, Default, Debug)]
pub struct Member {
    pub fund: Dollars,
    pub assessment: Dollars,
}
