// Who is a member, and how members come, grow and go.
ghost use Rattle.std.specs.Prelude.{◌≡◌, ◌≤◌, replicate, None};
ghost use Rattle.auction.specs.Enrolling.{enrol_tests, top_up_tests, member_tests, topped_up, put, too_much, less, as_member};
ghost use Rattle.auction.specs.Places.{places_of};
ghost use Rattle.auction.specs.Roster.{most_members, most_amount, place, fund_of, assessment_of};
ghost use Rattle.share.specs.Refusals.{numbered, unless, left_by, first_nonzero, in_range};

use super::Roster;
use crate::member::Member;
use crate::place::{Place, index};
use share::refusal::Refusal;
use share::units::Dollars;

pub const MOST_MEMBERS: u16 = 32;

pub const MOST_AMOUNT: Dollars = Dollars(100_000_000);

// Whether a member can have a number.
fn is_number(member: u16) -> bool
    ensures { result ≡ in_range member most_members }
{
    (1..=MOST_MEMBERS).contains(&member)
}

impl Member {
    // Whether the fund or the assessment is above its limit.
    fn is_too_much(&self) -> bool
        ensures { result ≡ too_much self.now.fund.0 self.now.assessment.0 }
    {
        self.fund > MOST_AMOUNT || self.assessment > MOST_AMOUNT
    }
}

impl Roster {
    // A roster of nobody.
    pub fn new() -> Roster
        ensures { places_of result ≡ replicate most_members None }
    {
        Roster {
            places: [Place(None); 32],
        }
    }

    // Who has a number.
    pub fn place(&self, member: u16) -> Option<Member>
        ensures { result ≡ place (places_of self.now) member }
    {
        self.places.get(index(member))?.0
    }

    // A member's fund and assessment; nothing where there is no member.
    pub(crate) fn amounts(&self, member: u16) -> Member
        ensures fund { result.fund.0 ≡ fund_of (place (places_of self.now) member) }
        ensures assessment { result.assessment.0 ≡ assessment_of (place (places_of self.now) member) }
        ensures limits { (result.fund.0 ≤ most_amount) × (result.assessment.0 ≤ most_amount) }
    {
        self.place(member).unwrap_or_default()
    }

    // Puts another entry at a number.
    // A test and an index: of the element that `get_mut` of an array lends, a proof learns nothing, so that the ghost fields and the promise would stay open.
    fn put(&mut self, member: u16, entry: Option<Member>)
        requires fund { fund_of entry ≤ most_amount }
        requires assessment { assessment_of entry ≤ most_amount }
        ensures { places_of self.new ≡ put (places_of self.old) member entry }
    {
        let i = index(member);
        if i < self.places.len() {
            self.places[i] = Place(entry);
        }
    }

    // The member of a number, if it is enrolled.
    pub fn enrolled(&self, member: u16) -> Result<Member, Refusal>
        ensures { as_member (numbered result) ≡ unless (first_nonzero (member_tests (places_of self.now) member)) (place (places_of self.now) member) }
    {
        if !is_number(member) {
            return Err(Refusal::OutOfRange);
        }
        self.place(member).ok_or(Refusal::NotEnrolled)
    }

    // Makes a number a member with these amounts.
    pub fn enrol(&mut self, member: u16, amounts: Member) -> Result<(), Refusal>
        ensures answer { numbered result ≡ unless (first_nonzero (enrol_tests (places_of self.old) member amounts.fund.0 amounts.assessment.0)) tt }
        ensures after { places_of self.new ≡ left_by (first_nonzero (enrol_tests (places_of self.old) member amounts.fund.0 amounts.assessment.0)) (places_of self.old) (put (places_of self.old) member (Some amounts)) }
    {
        if !is_number(member) {
            return Err(Refusal::OutOfRange);
        }
        if self.place(member).is_some() {
            return Err(Refusal::AlreadyEnrolled);
        }
        if amounts.is_too_much() {
            return Err(Refusal::OutsideLimits);
        }
        self.put(member, Some(amounts));
        Ok(())
    }

    // Adds to a member's fund and assessment.
    pub fn top_up(&mut self, member: u16, amounts: Member) -> Result<(), Refusal>
        ensures answer { numbered result ≡ unless (first_nonzero (top_up_tests (places_of self.old) member amounts.fund.0 amounts.assessment.0)) tt }
        ensures after { places_of self.new ≡ left_by (first_nonzero (top_up_tests (places_of self.old) member amounts.fund.0 amounts.assessment.0)) (places_of self.old) (put (places_of self.old) member (topped_up (place (places_of self.old) member) amounts.fund.0 amounts.assessment.0)) }
    {
        let old = self.enrolled(member)?;
        if amounts.is_too_much() {
            return Err(Refusal::OutsideLimits);
        }
        let new = Member {
            fund: old.fund + amounts.fund,
            assessment: old.assessment + amounts.assessment,
        };
        if new.is_too_much() {
            return Err(Refusal::OutsideLimits);
        }
        self.put(member, Some(new));
        Ok(())
    }

    // Removes a member, and says what it had.
    pub fn release(&mut self, member: u16) -> Result<Member, Refusal>
        ensures answer { as_member (numbered result) ≡ unless (first_nonzero (member_tests (places_of self.old) member)) (place (places_of self.old) member) }
        ensures after { places_of self.new ≡ left_by (first_nonzero (member_tests (places_of self.old) member)) (places_of self.old) (put (places_of self.old) member None) }
    {
        let old = self.enrolled(member)?;
        self.put(member, None);
        Ok(old)
    }

    // Lowers a member's fund and assessment.
    pub fn lower(&mut self, member: u16, amounts: Member)
        ensures { places_of self.new ≡ put (places_of self.old) member (less (place (places_of self.old) member) amounts.fund.0 amounts.assessment.0) }
    {
        if let Some(old) = self.place(member) {
            let new = Member {
                fund: Dollars(old.fund.0.saturating_sub(amounts.fund.0)),
                assessment: Dollars(old.assessment.0.saturating_sub(amounts.assessment.0)),
            };
            self.put(member, Some(new));
        }
    }
}
