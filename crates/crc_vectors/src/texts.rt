//! Texts and other messages with their CRC-32.

use crate::message;
use crate::message::Message;
use crate::report::Expected;

/// The bytes from 0 to 31.
const ASCENDING: &[u8; 32] = b"\x00\x01\x02\x03\x04\x05\x06\x07\x08\x09\x0A\x0B\x0C\x0D\x0E\x0F\
    \x10\x11\x12\x13\x14\x15\x16\x17\x18\x19\x1A\x1B\x1C\x1D\x1E\x1F";

/// The check value of the catalogue of parametrised CRC algorithms, and the texts of the MD5
/// test suite of RFC 1321, whose CRC-32s are among the test vectors of RHash.
const TEXTS: [Message; 8] = [
    Message {
        fcs: Expected {
            name: "123456789",
            value: 0xCBF4_3926,
            source: "CRC catalogue, CRC-32/ISO-HDLC, check",
        },
        bytes: b"123456789",
    },
    Message {
        fcs: Expected {
            name: "(empty)",
            value: 0x0000_0000,
            source: "RHash test vectors, texts of RFC 1321",
        },
        bytes: b"",
    },
    Message {
        fcs: Expected {
            name: "a",
            value: 0xE8B7_BE43,
            source: "RHash test vectors, texts of RFC 1321",
        },
        bytes: b"a",
    },
    Message {
        fcs: Expected {
            name: "abc",
            value: 0x3524_41C2,
            source: "RHash test vectors, texts of RFC 1321",
        },
        bytes: b"abc",
    },
    Message {
        fcs: Expected {
            name: "message digest",
            value: 0x2015_9D7F,
            source: "RHash test vectors, texts of RFC 1321",
        },
        bytes: b"message digest",
    },
    Message {
        fcs: Expected {
            name: "a to z",
            value: 0x4C27_50BD,
            source: "RHash test vectors, texts of RFC 1321",
        },
        bytes: b"abcdefghijklmnopqrstuvwxyz",
    },
    Message {
        fcs: Expected {
            name: "A to Z, a to z, 0 to 9",
            value: 0x1FC2_E6D2,
            source: "RHash test vectors, texts of RFC 1321",
        },
        bytes: b"ABCDEFGHIJKLMNOPQRSTUVWXYZabcdefghijklmnopqrstuvwxyz0123456789",
    },
    Message {
        fcs: Expected {
            name: "1234567890, eight times",
            value: 0x7CA9_4A72,
            source: "RHash test vectors, texts of RFC 1321",
        },
        bytes: b"12345678901234567890123456789012345678901234567890123456789012345678901234567890",
    },
];

/// A pangram whose CRC-32 is widely published, and the inputs of the examples of RFC 3720.
/// That document has another polynomial, so the CRC-32s of these are by zlib.
const OTHERS: [Message; 4] = [
    Message {
        fcs: Expected {
            name: "The quick brown fox ..",
            value: 0x414F_A339,
            source: "pangram, widely published",
        },
        bytes: b"The quick brown fox jumps over the lazy dog",
    },
    Message {
        fcs: Expected {
            name: "32 bytes of 00h",
            value: 0x190A_55AD,
            source: "input of RFC 3720, value by zlib",
        },
        bytes: &[0; 32],
    },
    Message {
        fcs: Expected {
            name: "32 bytes of FFh",
            value: 0xFF6C_AB0B,
            source: "input of RFC 3720, value by zlib",
        },
        bytes: &[0xFF; 32],
    },
    Message {
        fcs: Expected {
            name: "bytes 00h to 1Fh",
            value: 0x9126_7E8A,
            source: "input of RFC 3720, value by zlib",
        },
        bytes: ASCENDING,
    },
];

/// Compares every message.
pub(crate) fn compare(rt: &HostRuntime) -> anyhow::Result<bool> {
    let mut agreed = message::compare(rt, "CRC-32 of a text", &TEXTS)?;
    agreed &= message::compare(rt, "CRC-32 of other messages", &OTHERS)?;
    Ok(agreed)
}
