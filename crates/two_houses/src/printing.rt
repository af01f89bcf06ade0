// Calls in words.
use auction::offer::Offer;
use book::calls::Call;
use std::fmt;

// A call, to be printed with what it hands over.
#[derive(Clone, Copy)]
pub(crate) struct Shown(pub Call);

impl fmt::Display for Shown {
    fn fmt<W: fmt::Write>(&self, f: &mut fmt::Formatter<W>) -> fmt::Result {
        match self.0 {
            Call::Enrol {
                member,
                fund,
                assessment,
            } => write!(f, "enrol {member} {fund} {assessment}"),
            Call::TopUp {
                member,
                fund,
                assessment,
            } => write!(f, "top-up {member} {fund} {assessment}"),
            Call::Release(member) => write!(f, "release {member}"),
            Call::Open(offer) => show_offer(f, offer),
            Call::Excuse { member, lot } => write!(f, "excuse {member} {lot}"),
            Call::Bid {
                member,
                lot,
                kind,
                size,
                price,
            } => write!(f, "bid {member} {lot} {kind} {size} {price}"),
            Call::Close => write!(f, "close"),
            Call::Charge(amount) => write!(f, "charge {amount}"),
            Call::Recover(amount) => write!(f, "recover {amount}"),
            Call::Conclude => write!(f, "conclude"),
        }
    }
}

// The lots that there are, each by its weight, requirement and PRI.
fn show_offer<W: fmt::Write>(f: &mut fmt::Formatter<W>, offer: Offer) -> fmt::Result {
    write!(f, "open")?;
    for lot in offer.terms {
        if lot.weight > 0 {
            write!(f, " {} {} {}", lot.weight, lot.requirement, lot.pri)?;
        }
    }
    Ok(())
}
