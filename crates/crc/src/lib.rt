//! The 32-bit CRC register of IEEE 802.3, as the receiver keeps it.
#![tactic(auto)]

ghost use Rattle.std.specs.Prelude.{◌≡◌, ◌==◌, fold};
ghost use Rattle.crc.specs.Crc.{crc_byte, crc_over, start, residue};

mod lookup;
mod step;
mod tables;

/// The register before the first byte.
pub const START: u32 = 0xFFFF_FFFF;

/// The register after the last byte of a frame that matches.
const RESIDUE: u32 = 0xC704_DD7B;

/// The register after one more byte.
pub fn byte(register: u32, value: u8) -> u32
    ensures value { result ≡ crc_byte register value }
{
    step::one(register, value)
}

/// The register after more bytes.
#[tactic(auto, using(crate::proofs::Over::crc_over_eights))]
pub fn slice(register: u32, bytes: &[u8]) -> u32
    ensures value { result ≡ crc_over register bytes.now }
{
    let (chunks, rest) = bytes.as_chunks::<8>();
    let current = eights(register, chunks);
    each(current, rest)
}

/// The register after more bytes, eight at a time.
fn eights(register: u32, chunks: &[[u8; 8]]) -> u32
    ensures value { result ≡ fold crc_over register chunks.now }
{
    chunks.iter().fold(register, step::eight)
}

/// The register after more bytes, one at a time.
fn each(register: u32, bytes: &[u8]) -> u32
    ensures value { result ≡ crc_over register bytes.now }
{
    bytes
        .iter()
        .fold(register, |current, &value| byte(current, value))
}

/// Whether a frame with this register after its last byte matches.
pub fn matches(register: u32) -> bool
    ensures value { result ≡ (register == residue) }
{
    register == RESIDUE
}

/// Whether a frame of these bytes matches.
pub fn slice_matches(bytes: &[u8]) -> bool
    ensures value { result ≡ (crc_over start bytes.now == residue) }
{
    matches(slice(START, bytes))
}
