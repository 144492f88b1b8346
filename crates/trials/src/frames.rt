use crate::trial::Answer::*;
use crate::trial::Call::*;
use crate::trial::Plan::*;
use crate::trial::{BROADCAST, Call, Outcome, Refused, WHOLE, on_both};

// A frame in descriptors 0 and 1 is taken and released.
const TAKEN: &[(Call, Outcome)] = &[
    (Open(Three, 0x03), Ok(Accepted)),
    (Take(12), Err(Refused(12, 0))),
    (Arrivals(1, 8, WHOLE), Ok(Accepted)),
    (Release(0), Err(Refused(15, 0))),
    (Take(7), Err(Refused(14, 0))),
    (Buffer, Ok(Holds([7; 12]))),
    (
        Descriptor(0),
        Ok(Described([0x03, 0x00, 0x00, 0x01, 4, 0, 4, 0])),
    ),
    (Take(8), Ok(Frame(0, 2, 8, 0x21))),
    (
        Buffer,
        Ok(Holds([0xFF, 0xFF, 0xFF, 0xFF, 0xFF, 0xFF, 0xFF, 0xFF, 7, 7, 7, 7])),
    ),
    (
        Descriptor(0),
        Ok(Described([0x0B, 0x00, 0x00, 0x01, 4, 0, 4, 0])),
    ),
    (
        Descriptor(1),
        Ok(Described([0x0D, 0x21, 0x04, 0x01, 4, 0, 4, 0])),
    ),
    (Take(12), Err(Refused(12, 0))),
    (Release(3), Err(Refused(15, 0))),
    (Release(255), Err(Refused(15, 0))),
    (Release(2), Err(Refused(15, 0))),
    (Release(1), Err(Refused(15, 0))),
    (Release(0), Ok(Accepted)),
    (Release(0), Err(Refused(15, 0))),
    (
        Descriptor(0),
        Ok(Described([0x00, 0x00, 0x00, 0x01, 4, 0, 0, 0])),
    ),
    (
        Descriptor(1),
        Ok(Described([0x00, 0x00, 0x04, 0x01, 4, 0, 0, 0])),
    ),
    // a full table, with HOST where CURR is
    (Arrivals(1, 12, WHOLE), Ok(Accepted)),
    (Take(12), Ok(Frame(2, 3, 12, 0x22))),
    (Take(12), Err(Refused(12, 0))),
    (Release(0), Err(Refused(15, 0))),
    (Release(2), Ok(Accepted)),
    (Take(12), Err(Refused(12, 0))),
];

#[test]
fn take_and_release(rt: HostRuntime) {
    on_both(&rt, BROADCAST, TAKEN);
}

// Descriptor 0 stands at HOST, and each poke makes it unlawful or lawful again.
const UNLAWFUL: &[(Call, Outcome)] = &[
    (Open(Three, 0x03), Ok(Accepted)),
    (Poke(0, 0x11), Ok(Accepted)),
    (Take(12), Err(Refused(13, 0))),
    (Release(0), Err(Refused(13, 0))),
    (Poke(0, 0x80), Ok(Accepted)),
    (Take(12), Err(Refused(13, 0))),
    (Poke(0, 0x02), Ok(Accepted)),
    (Take(12), Err(Refused(13, 0))),
    (Poke(0, 0x00), Ok(Accepted)),
    (Take(12), Err(Refused(12, 0))),
    // length 0
    (Poke(4, 0), Ok(Accepted)),
    (Take(12), Err(Refused(13, 0))),
    (Poke(4, 4), Ok(Accepted)),
    // 509 + 4 passes the size, and 508 + 4 does not
    (Poke(2, 0xFD), Ok(Accepted)),
    (Take(12), Err(Refused(13, 0))),
    (Poke(2, 0xFC), Ok(Accepted)),
    (Take(12), Err(Refused(12, 0))),
    // 252 + 4 stays in the table
    (Poke(3, 0x00), Ok(Accepted)),
    (Take(12), Err(Refused(13, 0))),
    (Poke(3, 0x01), Ok(Accepted)),
    // fill may be the length, and no more
    (Poke(6, 5), Ok(Accepted)),
    (Take(12), Err(Refused(13, 0))),
    (Poke(6, 4), Ok(Accepted)),
    (Take(12), Err(Refused(12, 0))),
    // at another descriptor the place is its number
    (Poke(16, 0x04), Ok(Accepted)),
    (Release(2), Err(Refused(13, 2))),
    (Poke(16, 0x03), Ok(Accepted)),
    (Release(2), Err(Refused(15, 0))),
    (Poke(16, 0x09), Ok(Accepted)),
    (Release(2), Err(Refused(15, 0))),
];

#[test]
fn unlawful_descriptors(rt: HostRuntime) {
    on_both(&rt, BROADCAST, UNLAWFUL);
}

// A frame in all three descriptors, whose run is broken by pokes.
const BROKEN: &[(Call, Outcome)] = &[
    (Open(Three, 0x03), Ok(Accepted)),
    (Arrivals(1, 12, WHOLE), Ok(Accepted)),
    // descriptor 1 is unlawful, not HELD, TAKEN, or FIRST
    (Poke(8, 0x21), Ok(Accepted)),
    (Take(0), Err(Refused(13, 1))),
    (Poke(8, 0x00), Ok(Accepted)),
    (Take(12), Err(Refused(13, 1))),
    (Poke(8, 0x09), Ok(Accepted)),
    (Take(12), Err(Refused(13, 1))),
    (Poke(8, 0x03), Ok(Accepted)),
    (Take(12), Err(Refused(13, 1))),
    (Poke(8, 0x01), Ok(Accepted)),
    // the start lacks FIRST
    (Poke(0, 0x01), Ok(Accepted)),
    (Take(12), Err(Refused(13, 0))),
    (Poke(0, 0x03), Ok(Accepted)),
    // the third of three lacks LAST
    (Poke(16, 0x01), Ok(Accepted)),
    (Take(12), Err(Refused(13, 2))),
    (Poke(16, 0x05), Ok(Accepted)),
    (Buffer, Ok(Holds([7; 12]))),
    (Take(11), Err(Refused(14, 0))),
    (Take(12), Ok(Frame(0, 3, 12, 0x22))),
    // the same at release, where the run is TAKEN
    (Poke(8, 0x01), Ok(Accepted)),
    (Release(0), Err(Refused(13, 1))),
    (Poke(8, 0x0B), Ok(Accepted)),
    (Release(0), Err(Refused(13, 1))),
    (Poke(8, 0x09), Ok(Accepted)),
    (Poke(16, 0x09), Ok(Accepted)),
    (Release(0), Err(Refused(13, 2))),
    (Poke(16, 0x0D), Ok(Accepted)),
    (
        Descriptor(1),
        Ok(Described([0x09, 0x00, 0x04, 0x01, 4, 0, 4, 0])),
    ),
    (Release(0), Ok(Accepted)),
    (
        Descriptor(1),
        Ok(Described([0x00, 0x00, 0x04, 0x01, 4, 0, 0, 0])),
    ),
];

#[test]
fn broken_runs(rt: HostRuntime) {
    on_both(&rt, BROADCAST, BROKEN);
}
