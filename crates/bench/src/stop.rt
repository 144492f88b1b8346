use refusal::Refusal;
use std::io;

/// Why a session stops before its end.
#[derive(Debug, Drop)]
pub(crate) enum Stop {
    /// A call was refused.
    Refused(Refusal),
    /// A call was accepted that the session expected to be refused.
    Accepted,
    /// A line could not be printed.
    NotPrinted(io::Error),
}

impl From<Refusal> for Stop {
    fn from(refusal: Refusal) -> Stop {
        Stop::Refused(refusal)
    }
}

impl From<io::Error> for Stop {
    fn from(error: io::Error) -> Stop {
        Stop::NotPrinted(error)
    }
}
