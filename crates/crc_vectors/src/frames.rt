//! Ethernet frames with their FCS.

use crate::message;
use crate::message::Message;
use crate::report::Expected;

/// The frames without their FCS: the UDP packet of fpga4fun's description of a 10BASE-T
/// sender; a UDP packet that is the example of an FCS in texts on Ethernet; an ARP request
/// made from its fields, between the addresses for documentation 192.0.2.1 and 192.0.2.2;
/// and two bytes of FFh, with whose FCS the frame is FF FF 00 00 FF FF.
const FRAMES: [Message; 4] = [
    Message {
        fcs: Expected {
            name: "UDP",
            value: 0x1B88_31B3,
            source: "fpga4fun, 10BASE-T sender",
        },
        bytes: b"\x00\x10\xA4\x7B\xEA\x80\x00\x12\x34\x56\x78\x90\x08\x00\
        \x45\x00\x00\x2E\xB3\xFE\x00\x00\x80\x11\x05\x40\xC0\xA8\x00\x2C\
        \xC0\xA8\x00\x04\x04\x00\x04\x00\x00\x1A\x2D\xE8\x00\x01\x02\x03\
        \x04\x05\x06\x07\x08\x09\x0A\x0B\x0C\x0D\x0E\x0F\x10\x11",
    },
    Message {
        fcs: Expected {
            name: "UDP, broadcast",
            value: 0xFDD0_F69B,
            source: "example in texts on Ethernet",
        },
        bytes: b"\xFF\xFF\xFF\xFF\xFF\xFF\x00\x00\x00\x04\x14\x13\x08\x00\
        \x45\x00\x00\x2E\x00\x00\x00\x00\x40\x11\x7A\xC0\x00\x00\x00\x00\
        \xFF\xFF\xFF\xFF\x00\x00\x50\xDA\x00\x12\x00\x00\x42\x42\x42\x42\
        \x42\x42\x42\x42\x42\x42\x42\x42\x42\x42\x42\x42\x42\x42",
    },
    Message {
        fcs: Expected {
            name: "ARP request",
            value: 0x1C8D_A751,
            source: "made from its fields, FCS by zlib",
        },
        bytes: b"\xFF\xFF\xFF\xFF\xFF\xFF\x02\x00\x00\x00\x00\x01\x08\x06\
        \x00\x01\x08\x00\x06\x04\x00\x01\x02\x00\x00\x00\x00\x01\xC0\x00\
        \x02\x01\x00\x00\x00\x00\x00\x00\xC0\x00\x02\x02\x00\x00\x00\x00\
        \x00\x00\x00\x00\x00\x00\x00\x00\x00\x00\x00\x00\x00\x00",
    },
    Message {
        fcs: Expected {
            name: "FFh FFh",
            value: 0xFFFF_0000,
            source: "by zlib",
        },
        bytes: &[0xFF; 2],
    },
];

/// Compares every frame.
pub(crate) fn compare(rt: &HostRuntime) -> anyhow::Result<bool> {
    message::compare(rt, "FCS of an Ethernet frame", &FRAMES)
}
