use crate::trial::Answer::*;
use crate::trial::Call::*;
use crate::trial::Plan::*;
use crate::trial::{BROADCAST, Call, OVERRUN, Outcome, Refused, WHOLE, on_both};

const STEPS: &[(Call, Outcome)] = &[
    (Open(Three, 0x03), Ok(Accepted)),
    (Arrivals(2, 8, WHOLE), Ok(Accepted)),
    // what each page reads; of a page's number the two lowest bits count
    (Select(6), Ok(Accepted)),
    (Selected, Ok(Value(2))),
    (Read(0, 0x17), Ok(Value(0x11))),
    (Read(4, 0x1C), Ok(Value(0x30))),
    (Read(2, 0x11), Ok(Value(0x00))),
    (Read(6, 0x12), Ok(Value(0x01))),
    (Read(2, 0x1C), Ok(Value(0x03))),
    (Read(0, 0x11), Err(Refused(16, 0))),
    (Read(0, 0x12), Err(Refused(16, 0))),
    (Read(2, 0x17), Err(Refused(16, 0))),
    (Read(2, 0x1D), Err(Refused(16, 0))),
    (Read(1, 0x17), Err(Refused(16, 0))),
    (Read(3, 0x1F), Err(Refused(16, 0))),
    (Read(0, 0x97), Err(Refused(16, 0))),
    (Selected, Ok(Value(2))),
    // INTMASK keeps bits 0 to 6; MPCNT, which is read at its address, stays
    (Write(0, 0x1F, 0xFF), Ok(Accepted)),
    (Selected, Ok(Value(2))),
    (Read(2, 0x1F), Ok(Value(0x7F))),
    (Read(0, 0x1F), Ok(Value(1))),
    (Write(2, 0x1F, 0x00), Err(Refused(16, 0))),
    (Write(2, 0x1C, 0x00), Err(Refused(16, 0))),
    (Write(2, 0x11, 0x00), Err(Refused(16, 0))),
    (Write(0, 0x1C, 0x00), Err(Refused(16, 0))),
    (Write(0, 0x1D, 0x00), Err(Refused(16, 0))),
    (Write(1, 0x17, 0xFF), Err(Refused(16, 0))),
    (Read(2, 0x1F), Ok(Value(0x7F))),
    (Selected, Ok(Value(2))),
    // the cause is the lowest bit of both, and bits written as 1 are cleared
    (Cause, Ok(Bit(Some(0)))),
    (Write(0, 0x17, 0xEE), Ok(Accepted)),
    (Read(0, 0x17), Ok(Value(0x11))),
    (Write(0, 0x17, 0x01), Ok(Accepted)),
    (Read(0, 0x17), Ok(Value(0x10))),
    (Cause, Ok(Bit(Some(4)))),
    (Write(0, 0x1F, 0x6F), Ok(Accepted)),
    (Cause, Ok(Bit(None))),
    (Take(12), Ok(Frame(0, 2, 8, 0x21))),
    (Release(0), Ok(Accepted)),
    (Arrivals(128, 8, OVERRUN), Ok(Accepted)),
    (Read(0, 0x17), Ok(Value(0x34))),
    (Cause, Ok(Bit(Some(2)))),
    (Write(0, 0x17, 0x14), Ok(Accepted)),
    (Cause, Ok(Bit(Some(5)))),
    (Write(0, 0x17, 0x20), Ok(Accepted)),
    (Cause, Ok(Bit(None))),
];

#[test]
fn registers_and_cause(rt: HostRuntime) {
    on_both(&rt, BROADCAST, STEPS);
}
