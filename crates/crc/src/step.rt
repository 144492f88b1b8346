//! The steps of the register by the tables, one byte and eight bytes at a time. The data's part is named first: joined
//! in that order, only the register's part waits for the step before.

ghost use Rattle.std.specs.Prelude.{◌≡◌};
ghost use Rattle.crc.specs.Crc.{crc_bits, crc_byte, crc_over};

use crate::lookup::{data, register, top};

/// The register after one more byte.
#[tactic(auto, using(crate::proofs::Shift::byte_by_highest, std::proofs::lemmas::Nat::xor_comm), unfolding(crate::specs::Crc::crc_byte))]
pub(crate) fn one(before: u32, value: u8) -> u32
    ensures value { result ≡ crc_byte before value }
{
    let [highest, ..] = before.to_be_bytes();
    data(0, value) ^ ((before << 8) ^ top(highest))
}

/// The register after eight more bytes.
#[tactic(auto, using(crate::proofs::Parts::register_and_data, std::proofs::lemmas::Nat::xor_comm))]
pub(crate) fn eight(before: u32, bytes: &[u8; 8]) -> u32
    ensures value { result ≡ crc_over before bytes.now }
{
    data_part(bytes) ^ register_part(before)
}

/// The register after eight zero bytes. Its lowest byte is named first, since it needs no shift: with the highest first
/// a slice took 4 % longer.
#[tactic(auto, using(crate::proofs::Parts::register_from_lowest))]
fn register_part(before: u32) -> u32
    ensures value { result ≡ crc_bits 64 before 0 }
{
    let [b0, b1, b2, b3] = before.to_le_bytes();
    register(0, b0) ^ register(1, b1) ^ register(2, b2) ^ register(3, b3)
}

/// The register that was 0 after eight bytes.
fn data_part(bytes: &[u8; 8]) -> u32
    ensures value { result ≡ crc_over 0 bytes.now }
{
    let [b0, b1, b2, b3, b4, b5, b6, b7] = *bytes;
    data(7, b0)
        ^ data(6, b1)
        ^ data(5, b2)
        ^ data(4, b3)
        ^ data(3, b4)
        ^ data(2, b5)
        ^ data(1, b6)
        ^ data(0, b7)
}
