// What can be asked about a book.

#[derive(Clone, Copy)]
pub enum Question {
    Phase,
    Member(u16),
    Requirement { member: u16, lot: u16 },
    Price(u16),
    Allocation { lot: u16, entry: u16 },
    Average { member: u16, lot: u16 },
    Class { member: u16, lot: u16 },
    Seat(u16),
    Bears { member: u16, seat: u16 },
}
