//! Pseudo-random messages of every length from 0 to 300.

use crate::conventions::converted;
use crate::reflected;
use crate::report::{Base, Expected, heading};
use crate::ways::{Ways, byte_by_byte};
use std::alloc::{AllocError, Global};

/// The length of the longest message.
const LONGEST: usize = 300;

/// The first state of the generator.
const SEED: u32 = 0x83C7_9500;

/// The CRC-32 of the CRC-32s of all messages, each lowest byte first.
const DIGEST: Expected<'static> = Expected {
    name: "301 in order",
    value: 0xBEB1_4C30,
    source: "by zlib",
};

/// A generator of pseudo-random numbers: Marsaglia's xorshift by 13, 17 and 5.
#[derive(Drop)]
struct Generator {
    state: u32,
}

impl Generator {
    /// The next number.
    fn next(&mut self) -> u32 {
        self.state ^= self.state << 13;
        self.state ^= self.state >> 17;
        self.state ^= self.state << 5;
        self.state
    }

    /// A message of the next bytes.
    fn message(&mut self, heap: Global, length: usize) -> Result<Vec<u8>, AllocError> {
        let mut bytes = Vec::new(heap);
        for _ in 0..length {
            bytes.push((self.next() >> 24) as u8)?;
        }
        Ok(bytes)
    }
}

/// The register after the bytes, by `crc::slice` over two parts.
fn in_two_parts(bytes: &[u8], number: u32) -> u32 {
    let split = number as usize % (bytes.len() + 1);
    let first = crc::slice(crc::START, &bytes[0..split]);
    crc::slice(first, &bytes[split..])
}

/// What was compared.
#[derive(Drop)]
struct Tally {
    /// The registers compared.
    compared: u32,
    /// Those that differ.
    differing: u32,
    /// The CRC-32s of all messages.
    checksums: Vec<u8>,
}

impl Tally {
    /// Compares a register.
    fn compare(&mut self, register: u32, second: u32) {
        self.compared = self.compared.saturating_add(1);
        if converted(register) != second {
            self.differing = self.differing.saturating_add(1);
        }
    }

    /// Compares a message, which a number splits.
    fn compare_message(&mut self, bytes: &[u8], number: u32) -> Result<(), AllocError> {
        let second = reflected::checksum(bytes);
        let register = crc::slice(crc::START, bytes);
        self.compare(register, second);
        self.compare(byte_by_byte(bytes), second);
        self.compare(in_two_parts(bytes, number), second);
        self.checksums
            .extend_from_slice(&converted(register).to_le_bytes())
    }
}

/// Compares a message of each length.
fn compare_lengths(heap: Global) -> Result<Tally, AllocError> {
    let mut generator = Generator { state: SEED };
    let mut tally = Tally {
        compared: 0,
        differing: 0,
        checksums: Vec::new(heap),
    };
    for length in 0..=LONGEST {
        let message = generator.message(heap, length)?;
        tally.compare_message(message.as_slice(), generator.next())?;
    }
    Ok(tally)
}

/// Compares every message.
pub(crate) fn compare(rt: &HostRuntime) -> anyhow::Result<bool> {
    let Tally {
        compared,
        differing,
        checksums,
    } = compare_lengths(rt.alloc())?;
    println!(rt;
        "pseudo-random messages of 0 to {LONGEST} bytes: {compared} registers compared, {differing} differ"
    )?;
    heading(rt, "CRC-32 of their CRC-32s")?;
    let ways = Ways::over(checksums.as_slice()).map(converted);
    Ok(DIGEST.compare(rt, Base::Hexadecimal, ways, differing == 0)?)
}
