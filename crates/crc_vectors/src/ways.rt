//! The ways to the register after some bytes.

use crate::conventions::converted;
use crate::reflected;

/// The same number, by each way.
#[derive(Clone, Copy)]
pub(crate) struct Ways {
    /// By `crc::slice`.
    pub(crate) slice: u32,
    /// By `crc::byte`, byte by byte.
    pub(crate) byte: u32,
    /// By the second implementation.
    pub(crate) second: u32,
}

/// The register after the bytes, by `crc::byte`.
pub(crate) fn byte_by_byte(bytes: &[u8]) -> u32 {
    bytes
        .iter()
        .fold(crc::START, |register, value| crc::byte(register, *value))
}

impl Ways {
    /// The registers after the bytes.
    pub(crate) fn over(bytes: &[u8]) -> Ways {
        Ways {
            slice: crc::slice(crc::START, bytes),
            byte: byte_by_byte(bytes),
            second: converted(reflected::checksum(bytes)),
        }
    }

    /// What a function gives for each number.
    pub(crate) fn map<F: Fn(u32) -> u32>(self, f: F) -> Ways
        requires { F.IsAlwaysCallable f }
    {
        Ways {
            slice: f(self.slice),
            byte: f(self.byte),
            second: f(self.second),
        }
    }

    /// Whether each is the expected number.
    pub(crate) fn all(self, expected: u32) -> bool {
        self.slice == expected && self.byte == expected && self.second == expected
    }
}
