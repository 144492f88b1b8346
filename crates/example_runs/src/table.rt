use crate::step::Answer::{Address, Done, Took, Value};
use crate::step::Call::{Begin, Bytes, End, Read, Release, Take};
use crate::step::Example::{Additions, Six};
use crate::step::{Addition, Example, Refused, Run};
use rules::state::LastByte::{Ragged, Whole};

const INTSTAT: u8 = 0x17;

const RSTAT: u8 = 0x1C;

const ALICNT: u8 = 0x1D;

const CRCCNT: u8 = 0x1E;

const MPCNT: u8 = 0x1F;

/// The bench examples by their names, in the order of the rules.
pub(crate) const EXAMPLES: [(&'static str, Example); 12] = [
    (
        "a broadcast frame is kept",
        Example::Run(Run {
            rcon: 0x03,
            steps: &[
                (Begin, Ok(Done)),
                (Bytes(8), Ok(Done)),
                (End(Whole), Ok(Done)),
                (Take, Ok(Took(0, 2, 8, 0x21))),
                (Read(INTSTAT), Ok(Value(0x01))),
            ],
        }),
    ),
    (
        "a full table misses the next frame",
        Example::Run(Run {
            rcon: 0x03,
            steps: &[
                (Begin, Ok(Done)),
                (Bytes(8), Ok(Done)),
                (End(Whole), Ok(Done)),
                (Take, Ok(Took(0, 2, 8, 0x21))),
                (Begin, Ok(Done)),
                (Bytes(5), Ok(Done)),
                (Read(RSTAT), Ok(Value(0x00))),
                (Read(MPCNT), Ok(Value(0))),
                (Bytes(1), Ok(Done)),
                (Read(RSTAT), Ok(Value(0x30))),
                (Read(MPCNT), Ok(Value(1))),
                (Bytes(2), Ok(Done)),
                (End(Whole), Ok(Done)),
                (Read(RSTAT), Ok(Value(0x30))),
                (Take, Err(Refused(12, 0))),
            ],
        }),
    ),
    (
        "a release in mid-arrival makes room",
        Example::Run(Run {
            rcon: 0x03,
            steps: &[
                (Begin, Ok(Done)),
                (Bytes(8), Ok(Done)),
                (End(Whole), Ok(Done)),
                (Take, Ok(Took(0, 2, 8, 0x21))),
                (Begin, Ok(Done)),
                (Bytes(5), Ok(Done)),
                (Release(0), Ok(Done)),
                (Bytes(3), Ok(Done)),
                (End(Whole), Ok(Done)),
                (Take, Ok(Took(2, 2, 8, 0x21))),
            ],
        }),
    ),
    (
        "a mismatch is kept with its reason: whole",
        Example::Run(Run {
            rcon: 0x03,
            steps: &[
                (Begin, Ok(Done)),
                (Bytes(7), Ok(Done)),
                (End(Whole), Ok(Done)),
                (Take, Ok(Took(0, 2, 7, 0x22))),
                (Read(CRCCNT), Ok(Value(1))),
                (Read(INTSTAT), Ok(Value(0x04))),
            ],
        }),
    ),
    (
        "a mismatch is kept with its reason: ragged",
        Example::Run(Run {
            rcon: 0x03,
            steps: &[
                (Begin, Ok(Done)),
                (Bytes(7), Ok(Done)),
                (End(Ragged), Ok(Done)),
                (Take, Ok(Took(0, 2, 7, 0x24))),
                (Read(ALICNT), Ok(Value(1))),
            ],
        }),
    ),
    (
        "a ragged frame that matches is good",
        Example::Run(Run {
            rcon: 0x03,
            steps: &[
                (Begin, Ok(Done)),
                (Bytes(8), Ok(Done)),
                (End(Ragged), Ok(Done)),
                (Take, Ok(Took(0, 2, 8, 0x21))),
            ],
        }),
    ),
    (
        "a runt is dropped uncounted",
        Example::Run(Run {
            rcon: 0x00,
            steps: &[
                (Begin, Ok(Done)),
                (Bytes(8), Ok(Done)),
                (End(Whole), Ok(Done)),
                (Take, Err(Refused(12, 0))),
                (Read(RSTAT), Ok(Value(0x20))),
                (Read(INTSTAT), Ok(Value(0x00))),
            ],
        }),
    ),
    (
        "a frame may fill every buffer",
        Example::Run(Run {
            rcon: 0x03,
            steps: &[
                (Begin, Ok(Done)),
                (Bytes(12), Ok(Done)),
                (End(Whole), Ok(Done)),
                (Take, Ok(Took(0, 3, 12, 0x22))),
            ],
        }),
    ),
    (
        "a frame may fill every buffer, but not one byte more",
        Example::Run(Run {
            rcon: 0x03,
            steps: &[
                (Begin, Ok(Done)),
                (Bytes(12), Ok(Done)),
                (Read(RSTAT), Ok(Value(0x20))),
                (Read(MPCNT), Ok(Value(0))),
                (Bytes(1), Ok(Done)),
                (Read(RSTAT), Ok(Value(0x30))),
                (Read(MPCNT), Ok(Value(1))),
                (End(Whole), Ok(Done)),
                (Take, Err(Refused(12, 0))),
            ],
        }),
    ),
    (
        "a group index and a frame of six bytes",
        Six(
            [0xFF, 0xFF, 0x00, 0x00, 0xFF, 0xFF],
            Ok(Address(Some(49), true)),
        ),
    ),
    (
        "a release names the first descriptor of a taken frame, once",
        Example::Run(Run {
            rcon: 0x03,
            steps: &[
                (Begin, Ok(Done)),
                (Bytes(8), Ok(Done)),
                (End(Whole), Ok(Done)),
                (Take, Ok(Took(0, 2, 8, 0x21))),
                (Release(1), Err(Refused(15, 0))),
                (Release(0), Ok(Done)),
                (Release(0), Err(Refused(15, 0))),
            ],
        }),
    ),
    (
        "a buffer fits in the memory and shares no byte",
        Additions(&[
            Addition {
                start: 259,
                length: 2,
                outcome: Err(Refused(5, 0)),
            },
            Addition {
                start: 511,
                length: 2,
                outcome: Err(Refused(4, 0)),
            },
            Addition {
                start: 510,
                length: 2,
                outcome: Ok(Done),
            },
        ]),
    ),
];
