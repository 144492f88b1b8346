use crate::trial::Answer::*;
use crate::trial::Call::*;
use crate::trial::Plan::*;
use crate::trial::{
    BROADCAST, COLLISION, Call, INTSTAT, MPCNT, OVERRUN, Outcome, RSTAT, Refused, WHOLE, on_both,
};

// A shut board refuses all but open, peek and poke.
const SHUT: &[(Call, Outcome)] = &[
    (Begin, Err(Refused(9, 0))),
    (Bytes(0xFF, 1), Err(Refused(9, 0))),
    (Line(WHOLE), Err(Refused(9, 0))),
    (Line(COLLISION), Err(Refused(9, 0))),
    (Take(0), Err(Refused(9, 0))),
    (Release(3), Err(Refused(9, 0))),
    (Read(0, 0x17), Err(Refused(9, 0))),
    (Read(1, 0x00), Err(Refused(9, 0))),
    (Write(0, 0x17, 0xFF), Err(Refused(9, 0))),
    (Write(1, 0x00, 0xFF), Err(Refused(9, 0))),
    (Cause, Err(Refused(9, 0))),
    (Poke(510, 0x12), Ok(Accepted)),
    (Poke(511, 0x34), Ok(Accepted)),
    (Peek(510), Ok(Value(0x12))),
    (Peek(511), Ok(Value(0x34))),
    (Peek(509), Ok(Value(0x00))),
    (Peek(512), Err(Refused(17, 512))),
    (Poke(512, 0x56), Err(Refused(17, 512))),
    (Peek(0xFFFF_FFFF), Err(Refused(17, 0xFFFF_FFFF))),
    (Poke(65536, 0x56), Err(Refused(17, 65536))),
    // a refused open leaves it shut
    (Open(Blank, 0x04), Err(Refused(6, 0))),
    (Open(Larger, 0x04), Err(Refused(7, 0))),
    (Open(Three, 0x04), Err(Refused(8, 0))),
    (Open(Three, 0x83), Err(Refused(8, 0))),
    (Begin, Err(Refused(9, 0))),
    (Descriptor(0), Ok(Described([0; 8]))),
];

#[test]
fn shut_board(rt: HostRuntime) {
    on_both(&rt, BROADCAST, SHUT);
}

// Open writes the descriptors and starts over.
const OPENED: &[(Call, Outcome)] = &[
    (Poke(0, 0xFF), Ok(Accepted)),
    (Poke(22, 0xFF), Ok(Accepted)),
    (Poke(24, 0xFF), Ok(Accepted)),
    (Open(Three, 0x03), Ok(Accepted)),
    (Descriptor(0), Ok(Described([0, 0, 0x00, 0x01, 4, 0, 0, 0]))),
    (Descriptor(1), Ok(Described([0, 0, 0x04, 0x01, 4, 0, 0, 0]))),
    (Descriptor(2), Ok(Described([0, 0, 0x08, 0x01, 4, 0, 0, 0]))),
    (Descriptor(3), Ok(Described([0xFF, 0, 0, 0, 0, 0, 0, 0]))),
    // a refused open leaves an arrival going
    (Begin, Ok(Accepted)),
    (Bytes(0xFF, 5), Ok(Accepted)),
    (Open(Blank, 0x03), Err(Refused(6, 0))),
    (Open(Larger, 0x03), Err(Refused(7, 0))),
    (Open(Three, 0x07), Err(Refused(8, 0))),
    (Bytes(0xFF, 3), Ok(Accepted)),
    (Line(WHOLE), Ok(Accepted)),
    (Take(12), Ok(Frame(0, 2, 8, 0x21))),
    // an accepted one ends it, and clears registers and places
    (Arrivals(1, 8, OVERRUN), Ok(Accepted)),
    (Arrivals(1, 8, WHOLE), Ok(Accepted)),
    (Write(0, 0x1F, 0x7F), Ok(Accepted)),
    (Begin, Ok(Accepted)),
    (Bytes(0xFF, 5), Ok(Accepted)),
    (Open(Three, 0x02), Ok(Accepted)),
    (Bytes(0xFF, 1), Err(Refused(11, 0))),
    (INTSTAT, Ok(Value(0x00))),
    (RSTAT, Ok(Value(0x00))),
    (MPCNT, Ok(Value(0x00))),
    (Read(2, 0x1F), Ok(Value(0x00))),
    (Read(2, 0x1C), Ok(Value(0x02))),
    (Descriptor(0), Ok(Described([0, 0, 0x00, 0x01, 4, 0, 0, 0]))),
    (Arrivals(1, 8, WHOLE), Ok(Accepted)),
    (Take(12), Ok(Frame(0, 2, 8, 0x21))),
];

#[test]
fn open_starts_over(rt: HostRuntime) {
    on_both(&rt, BROADCAST, OPENED);
}
