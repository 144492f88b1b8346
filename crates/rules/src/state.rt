use memory::address::Page;
use refusal::Refusal;

/// What an accepted open fixes.
#[derive(Clone, Copy)]
pub struct Setup {
    pub size: u32,
    pub rbegin: Page,
    pub rend: Page,
    /// How many descriptors the board goes round.
    pub count: u8,
    pub rcon: u8,
}

/// A descriptor, as it stands in the receive table.
#[derive(Clone, Copy)]
pub struct Descriptor {
    /// Byte 0: HELD, FIRST, LAST and TAKEN.
    pub flags: u8,
    pub status: u8,
    pub start: u16,
    pub length: u16,
    pub fill: u16,
}

/// A frame in the table, by its run of descriptors.
#[derive(Clone, Copy)]
pub struct Run {
    pub count: u8,
    pub length: u32,
    pub status: u8,
}

/// The descriptor that breaks a run, and how.
#[derive(Clone, Copy)]
pub enum Break {
    /// It is unlawful by itself.
    Unlawful(u8),
    /// It is not HELD, or its FIRST or its TAKEN is not that of its place in the run.
    Misplaced(u8),
    /// It is the last that the run may have, and lacks LAST.
    Endless(u8),
}

/// However a run is broken, it is refused at the descriptor.
impl From<Break> for Refusal {
    ghost use Rattle.std.specs.Prelude.{◌≡◌};
    ghost use Rattle.rules.specs.Host.{judged};

    ghost from_gives = { λ broken refusal. refusal ≡ judged broken };

    fn from(broken: Break) -> Refusal {
        match broken {
            Break::Unlawful(descriptor)
            | Break::Misplaced(descriptor)
            | Break::Endless(descriptor) => Refusal::Broken(descriptor),
        }
    }
}

/// How far an arrival is stored.
// No Option for the latest buffer: where `used` is 0 it has length 0, so the one comparison that a byte costs serves both.
#[derive(Clone, Copy)]
pub struct Stored {
    /// How many descriptors it has, from CURR on.
    pub used: u8,
    /// The latest of them, with the start and the length of its buffer.
    pub latest: u8,
    pub start: u16,
    pub length: u16,
    /// The bytes stored in that buffer.
    pub filled: u16,
    /// The bytes stored in all, counted up to 255.
    pub total: u8,
}

/// The phase of the arrival under way, or `Idle` where there is none.
#[derive(Clone, Copy)]
pub enum Phase {
    Idle,
    /// Fewer than six bytes have come: these, and how many.
    // An array with a count: a phase is copied, a board has fixed memory, and a byte never fails for want of it.
    Address { bytes: [u8; 6], count: u8 },
    Storing(Stored),
    Ignored,
    Missed,
}

/// Whether the last byte of an arrival was whole.
#[derive(Clone, Copy, PartialEq, Eq, Debug)]
pub enum LastByte {
    Whole,
    Ragged,
}

/// Why an arrival was aborted.
#[derive(Clone, Copy, PartialEq, Eq, Debug)]
pub enum Fault {
    Collision,
    Overrun,
}

/// What the line says of the arrival under way.
#[derive(Clone, Copy)]
pub enum Event {
    Byte(u8),
    End(LastByte),
    Abort(Fault),
}

#[derive(Clone, Copy)]
pub struct Registers {
    pub rstat: u8,
    pub intstat: u8,
    pub intmask: u8,
    pub alicnt: u8,
    pub crccnt: u8,
    pub mpcnt: u8,
}

/// The registers, places and arrival of an open board.
#[derive(Clone, Copy)]
pub struct State {
    pub registers: Registers,
    /// The descriptor after the last frame kept.
    pub curr: u8,
    /// The descriptor after the last frame taken.
    pub host: u8,
    /// The CRC register over the bytes of the arrival.
    pub crc: u32,
    pub phase: Phase,
}

/// A register that the host can name.
#[derive(Clone, Copy)]
pub enum Register {
    IntStat,
    RStat,
    AliCnt,
    CrcCnt,
    MpCnt,
    RBegin,
    REnd,
    RCon,
    IntMask,
}
