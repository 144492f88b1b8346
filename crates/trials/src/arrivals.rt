use crate::trial::Answer::*;
use crate::trial::Call::*;
use crate::trial::Plan::*;
use crate::trial::{
    ALICNT, BROADCAST, COLLISION, CRCCNT, Call, INTSTAT, MPCNT, OVERRUN, Outcome, RAGGED, RSTAT,
    Refused, WHOLE, on_both,
};

// Eight FFh match, and seven do not.
const JUDGED: &[(Call, Outcome)] = &[
    (Open(Three, 0x03), Ok(Accepted)),
    (Bytes(0xFF, 1), Err(Refused(11, 0))),
    (Line(WHOLE), Err(Refused(11, 0))),
    (Line(OVERRUN), Err(Refused(11, 0))),
    (Begin, Ok(Accepted)),
    (Begin, Err(Refused(10, 0))),
    (Poke(511, 1), Err(Refused(10, 0))),
    (Poke(512, 1), Err(Refused(10, 0))),
    (Peek(511), Ok(Value(0))),
    (Peek(512), Err(Refused(17, 512))),
    (Bytes(0xFF, 8), Ok(Accepted)),
    (Line(WHOLE), Ok(Accepted)),
    (Line(WHOLE), Err(Refused(11, 0))),
    (RSTAT, Ok(Value(0x21))),
    (INTSTAT, Ok(Value(0x01))),
    (
        Descriptor(0),
        Ok(Described([0x03, 0x00, 0x00, 0x01, 4, 0, 4, 0])),
    ),
    (
        Descriptor(1),
        Ok(Described([0x05, 0x21, 0x04, 0x01, 4, 0, 4, 0])),
    ),
    (
        Descriptor(2),
        Ok(Described([0x00, 0x00, 0x08, 0x01, 4, 0, 0, 0])),
    ),
    // a ragged end whose register matches is good
    (Open(Three, 0x03), Ok(Accepted)),
    (Arrivals(1, 8, RAGGED), Ok(Accepted)),
    (RSTAT, Ok(Value(0x21))),
    (ALICNT, Ok(Value(0))),
    // a mismatch
    (Open(Three, 0x03), Ok(Accepted)),
    (Arrivals(1, 7, WHOLE), Ok(Accepted)),
    (RSTAT, Ok(Value(0x22))),
    (INTSTAT, Ok(Value(0x04))),
    (CRCCNT, Ok(Value(1))),
    (CRCCNT, Ok(Value(0))),
    (ALICNT, Ok(Value(0))),
    (
        Descriptor(1),
        Ok(Described([0x05, 0x22, 0x04, 0x01, 4, 0, 3, 0])),
    ),
    (Open(Three, 0x03), Ok(Accepted)),
    (Arrivals(1, 7, RAGGED), Ok(Accepted)),
    (RSTAT, Ok(Value(0x24))),
    (INTSTAT, Ok(Value(0x04))),
    (ALICNT, Ok(Value(1))),
    (CRCCNT, Ok(Value(0))),
    // a mismatch with SEP clear counts, and is dropped without RXE
    (Open(Three, 0x02), Ok(Accepted)),
    (Arrivals(1, 7, WHOLE), Ok(Accepted)),
    (RSTAT, Ok(Value(0x22))),
    (Arrivals(1, 7, RAGGED), Ok(Accepted)),
    (RSTAT, Ok(Value(0x24))),
    (INTSTAT, Ok(Value(0x00))),
    (ALICNT, Ok(Value(1))),
    (CRCCNT, Ok(Value(1))),
    (Take(12), Err(Refused(12, 0))),
    (Arrivals(1, 8, WHOLE), Ok(Accepted)),
    (Take(12), Ok(Frame(0, 2, 8, 0x21))),
    // fewer than 64 bytes with RUNTS clear are dropped uncounted
    (Open(One, 0x01), Ok(Accepted)),
    (Arrivals(1, 8, WHOLE), Ok(Accepted)),
    (RSTAT, Ok(Value(0x20))),
    (Arrivals(1, 63, WHOLE), Ok(Accepted)),
    (RSTAT, Ok(Value(0x20))),
    (INTSTAT, Ok(Value(0x00))),
    (CRCCNT, Ok(Value(0))),
    (Take(12), Err(Refused(12, 0))),
    (Arrivals(1, 64, WHOLE), Ok(Accepted)),
    (RSTAT, Ok(Value(0x22))),
    (CRCCNT, Ok(Value(1))),
    (
        Descriptor(0),
        Ok(Described([0x07, 0x22, 0x00, 0x01, 0, 1, 64, 0])),
    ),
];

#[test]
fn ends_are_judged(rt: HostRuntime) {
    on_both(&rt, BROADCAST, JUDGED);
}

// Arrivals that keep no frame.
const DROPPED: &[(Call, Outcome)] = &[
    // five bytes are no address, and six of 00h are not in the set
    (Open(Three, 0x03), Ok(Accepted)),
    (Arrivals(1, 5, WHOLE), Ok(Accepted)),
    (RSTAT, Ok(Value(0x00))),
    (Arrivals(1, 5, OVERRUN), Ok(Accepted)),
    (RSTAT, Ok(Value(0x00))),
    (Begin, Ok(Accepted)),
    (Bytes(0x00, 8), Ok(Accepted)),
    (Line(OVERRUN), Ok(Accepted)),
    (RSTAT, Ok(Value(0x00))),
    // a collision is only over, and an overrun counts
    (Arrivals(1, 8, COLLISION), Ok(Accepted)),
    (RSTAT, Ok(Value(0x20))),
    (INTSTAT, Ok(Value(0x00))),
    (MPCNT, Ok(Value(0))),
    (Arrivals(1, 8, OVERRUN), Ok(Accepted)),
    (RSTAT, Ok(Value(0x28))),
    (INTSTAT, Ok(Value(0x04))),
    (MPCNT, Ok(Value(1))),
    (
        Descriptor(0),
        Ok(Described([0x00, 0x00, 0x00, 0x01, 4, 0, 0, 0])),
    ),
    // three buffers hold twelve bytes: the thirteenth needs the arrival's own
    (Open(Three, 0x03), Ok(Accepted)),
    (Arrivals(1, 13, OVERRUN), Ok(Accepted)),
    (RSTAT, Ok(Value(0x30))),
    (INTSTAT, Ok(Value(0x10))),
    (MPCNT, Ok(Value(1))),
    (Take(12), Err(Refused(12, 0))),
    // an unlawful descriptor at CURR
    (Poke(0, 0x10), Ok(Accepted)),
    (Arrivals(1, 8, WHOLE), Ok(Accepted)),
    (RSTAT, Ok(Value(0x30))),
    (MPCNT, Ok(Value(1))),
    (Poke(0, 0x00), Ok(Accepted)),
    // HELD descriptors, until they are released in mid-arrival
    (Open(Three, 0x03), Ok(Accepted)),
    (Arrivals(2, 8, WHOLE), Ok(Accepted)),
    (RSTAT, Ok(Value(0x30))),
    (INTSTAT, Ok(Value(0x11))),
    (MPCNT, Ok(Value(1))),
    (Take(12), Ok(Frame(0, 2, 8, 0x21))),
    (Begin, Ok(Accepted)),
    (Bytes(0xFF, 5), Ok(Accepted)),
    (Release(0), Ok(Accepted)),
    (Bytes(0xFF, 3), Ok(Accepted)),
    (Line(WHOLE), Ok(Accepted)),
    (Take(12), Ok(Frame(2, 2, 8, 0x21))),
];

#[test]
fn arrivals_that_keep_no_frame(rt: HostRuntime) {
    on_both(&rt, BROADCAST, DROPPED);
}

// A counter stays at 255, and a count that leaves it at 128 or more sets CNT.
const COUNTED: &[(Call, Outcome)] = &[
    (Open(Three, 0x02), Ok(Accepted)),
    (Arrivals(127, 8, OVERRUN), Ok(Accepted)),
    (INTSTAT, Ok(Value(0x04))),
    (Arrivals(1, 8, OVERRUN), Ok(Accepted)),
    (INTSTAT, Ok(Value(0x24))),
    (Arrivals(127, 8, OVERRUN), Ok(Accepted)),
    (Write(0, 0x17, 0xFF), Ok(Accepted)),
    (INTSTAT, Ok(Value(0x00))),
    (Arrivals(1, 8, OVERRUN), Ok(Accepted)),
    (INTSTAT, Ok(Value(0x24))),
    (MPCNT, Ok(Value(255))),
    (MPCNT, Ok(Value(0))),
    (Write(0, 0x17, 0xFF), Ok(Accepted)),
    (Arrivals(1, 8, OVERRUN), Ok(Accepted)),
    (INTSTAT, Ok(Value(0x04))),
    (MPCNT, Ok(Value(1))),
    (Write(0, 0x17, 0xFF), Ok(Accepted)),
    // each counter by itself
    (Arrivals(127, 7, WHOLE), Ok(Accepted)),
    (Arrivals(127, 7, RAGGED), Ok(Accepted)),
    (INTSTAT, Ok(Value(0x00))),
    (Arrivals(1, 7, WHOLE), Ok(Accepted)),
    (INTSTAT, Ok(Value(0x20))),
    (Write(0, 0x17, 0x20), Ok(Accepted)),
    (Arrivals(1, 7, RAGGED), Ok(Accepted)),
    (INTSTAT, Ok(Value(0x20))),
    (Arrivals(200, 7, WHOLE), Ok(Accepted)),
    (Arrivals(200, 7, RAGGED), Ok(Accepted)),
    (CRCCNT, Ok(Value(255))),
    (ALICNT, Ok(Value(255))),
    (MPCNT, Ok(Value(0))),
];

#[test]
fn counters_stay_at_255(rt: HostRuntime) {
    on_both(&rt, BROADCAST, COUNTED);
}
