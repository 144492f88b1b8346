use refusal::Refusal;
use rules::state::LastByte;

/// A call of a run. The table of examples lists calls with their answers, so they are values.
#[derive(Clone, Copy)]
pub(crate) enum Call {
    Begin,
    /// So many bytes of FFh come.
    Bytes(u8),
    End(LastByte),
    /// Take, to a buffer of 16 bytes.
    Take,
    Release(u8),
    /// Read the register at an address of page 0.
    Read(u8),
}

/// What an accepted call answers.
#[derive(Clone, Copy, PartialEq, Eq, Debug)]
pub(crate) enum Answer {
    Done,
    /// First descriptor, descriptors, length and status of a frame of bytes of FFh.
    Took(u8, u8, u32, u8),
    /// Take was accepted, but the caller's buffer does not have the frame in front, and 0 in the rest.
    OtherBytes,
    /// What a register holds.
    Value(u8),
    /// The group index of an address, and whether its bytes match as a frame.
    Address(Option<u8>, bool),
}

/// A refusal's number and place: the numbers are the rules', so they stand in the table. The same as in `trials`: a library
/// for it alone is no plainer.
#[derive(Clone, Copy, PartialEq, Eq, Debug)]
pub(crate) struct Refused(pub u8, pub u32);

impl From<Refusal> for Refused {
    fn from(refusal: Refusal) -> Refused {
        Refused(refusal.number(), refusal.place())
    }
}

/// What a call answers.
pub(crate) type Outcome = Result<Answer, Refused>;

/// A run of a board that is opened with RCON: calls, each with what it answers.
#[derive(Clone, Copy)]
pub(crate) struct Run {
    pub rcon: u8,
    pub steps: &'static [(Call, Outcome)],
}

/// A buffer to add, by its start and length, and what add answers.
#[derive(Clone, Copy)]
pub(crate) struct Addition {
    pub start: u32,
    pub length: u16,
    pub outcome: Outcome,
}

/// What an example does, and what must come of it. The table lists examples, so they are values.
#[derive(Clone, Copy)]
pub(crate) enum Example {
    Run(Run),
    /// What six bytes are as an address and as a frame.
    Six([u8; 6], Outcome),
    /// Buffers are added to the layout of the bench.
    Additions(&'static [Addition]),
}
