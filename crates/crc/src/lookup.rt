//! What the tables hold, by the definition. Each table has a function of its own: what they share is one index, and their
//! contracts differ.

ghost use Rattle.std.specs.Prelude.{◌≡◌, ◌+◌, ◌*◌, ◌^◌, ◌<◌};
ghost use Rattle.crc.specs.Crc.{crc_bits, crc_byte};

use crate::tables::{DATA, REGISTER, TOP};

/// The register after a zero byte, where only its top byte was not 0.
pub(crate) fn top(value: u8) -> u32
    ensures value { result ≡ crc_byte (value * 2 ^ 24) 0 }
{
    TOP[value as usize]
}

/// The register after eight zero bytes, where only its byte at `place` was not 0.
pub(crate) fn register(place: usize, value: u8) -> u32
    requires row { place < 4 }
    ensures value { result ≡ crc_bits 64 (value * 2 ^ (8 * place)) 0 }
{
    REGISTER[place][value as usize]
}

/// The register that was 0 after a data byte and `behind` zero bytes.
pub(crate) fn data(behind: usize, value: u8) -> u32
    requires row { behind < 8 }
    ensures value { result ≡ crc_bits (8 * (behind + 1)) 0 value }
{
    DATA[behind][value as usize]
}
