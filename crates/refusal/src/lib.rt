#![tactic(auto)]

ghost use Rattle.std.specs.Prelude.{◌≡◌};
ghost use Rattle.refusal.specs.Numbers.{number, place, code};

/// Why a call was refused. A refused call has changed nothing.
#[derive(Clone, Copy, PartialEq, Eq, Debug)]
pub enum Refusal {
    /// The memory size is not a multiple of 256 from 512 to 65,536.
    BadSize,
    /// RBEGIN is not below REND, the table has more than two pages, or it passes the size.
    BadTable,
    /// The layout has as many buffers as its table has descriptors.
    LayoutFull,
    /// The buffer has no byte, or passes the memory size.
    BadBuffer,
    /// The buffer shares a byte with the table or with another buffer.
    Shared,
    /// The layout has no buffer.
    NoBuffer,
    /// The layout and the memory differ in size.
    OtherSize,
    /// RCON has a bit above bit 1.
    BadRcon,
    /// The board was never opened.
    Shut,
    /// An arrival is under way.
    UnderWay,
    /// No arrival is under way.
    NoArrival,
    /// No frame waits at HOST.
    NoFrame,
    /// This descriptor is unlawful, or breaks the run of its frame.
    Broken(u8),
    /// The caller's buffer is too short.
    ShortBuffer,
    /// No taken frame starts at the descriptor named.
    NotTaken,
    /// The page has no such register to read or to write.
    NoRegister,
    /// This address is not below the memory's size.
    Outside(u32),
    /// The sheet's list has no place left.
    SheetFull,
    /// The address is a member already.
    AlreadyMember,
}

// The rules give each refusal its number and its place. No match has a `_`, so that a new refusal cannot be left out.
impl Refusal {
    /// The refusal's number.
    pub fn number(self) -> u8
        ensures value { result ≡ number self }
    {
        match self {
            Refusal::BadSize => 1,
            Refusal::BadTable => 2,
            Refusal::LayoutFull => 3,
            Refusal::BadBuffer => 4,
            Refusal::Shared => 5,
            Refusal::NoBuffer => 6,
            Refusal::OtherSize => 7,
            Refusal::BadRcon => 8,
            Refusal::Shut => 9,
            Refusal::UnderWay => 10,
            Refusal::NoArrival => 11,
            Refusal::NoFrame => 12,
            Refusal::Broken(_) => 13,
            Refusal::ShortBuffer => 14,
            Refusal::NotTaken => 15,
            Refusal::NoRegister => 16,
            Refusal::Outside(_) => 17,
            Refusal::SheetFull => 18,
            Refusal::AlreadyMember => 19,
        }
    }

    /// The place that the refusal names: a descriptor, an address, or 0.
    pub fn place(self) -> u32
        ensures value { result ≡ place self }
    {
        match self {
            Refusal::Broken(descriptor) => descriptor as u32,
            Refusal::Outside(address) => address,
            Refusal::BadSize
            | Refusal::BadTable
            | Refusal::LayoutFull
            | Refusal::BadBuffer
            | Refusal::Shared
            | Refusal::NoBuffer
            | Refusal::OtherSize
            | Refusal::BadRcon
            | Refusal::Shut
            | Refusal::UnderWay
            | Refusal::NoArrival
            | Refusal::NoFrame
            | Refusal::ShortBuffer
            | Refusal::NotTaken
            | Refusal::NoRegister
            | Refusal::SheetFull
            | Refusal::AlreadyMember => 0,
        }
    }
}

/// The number that a call answers: 0 where it was accepted, else its refusal's.
pub fn code(answer: Result<(), Refusal>) -> u8
    ensures value { result ≡ code answer }
{
    match answer {
        Ok(()) => 0,
        Err(refusal) => refusal.number(),
    }
}
