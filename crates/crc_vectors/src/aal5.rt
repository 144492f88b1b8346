//! The examples of ITU-T I.363.5 for AAL type 5, which has the same polynomial.
//!
//! AAL5 sends the highest bit of a byte first, so each byte goes in with its bits in reverse
//! order; its CRC is the complement of the register.

use crate::report::{Base, Expected, heading};
use crate::ways::Ways;

/// The bytes from 1 to 40.
const COUNTING: &[u8; 40] =
    b"\x01\x02\x03\x04\x05\x06\x07\x08\x09\x0A\x0B\x0C\x0D\x0E\x0F\x10\x11\x12\x13\x14\
    \x15\x16\x17\x18\x19\x1A\x1B\x1C\x1D\x1E\x1F\x20\x21\x22\x23\x24\x25\x26\x27\x28";

/// The first four bytes of the trailer: no user information, and the length 40.
const TRAILER: [u8; 4] = [0, 0, 0, 40];

/// Compares the CRC of 40 bytes and their trailer.
fn compare_packet(
    rt: &HostRuntime,
    name: &str,
    payload: &[u8; 40],
    value: u32,
) -> anyhow::Result<bool> {
    let mut packet = payload.to_vec(rt.alloc())?;
    packet.extend_from_slice(&TRAILER)?;
    for byte in packet.iter_mut() {
        *byte = byte.reverse_bits();
    }
    let example = Expected {
        name,
        value,
        source: "ITU-T I.363.5, example",
    };
    let ways = Ways::over(packet.as_slice()).map(|register| !register);
    Ok(example.compare(rt, Base::Hexadecimal, ways, true)?)
}

/// Compares every example.
pub(crate) fn compare(rt: &HostRuntime) -> anyhow::Result<bool> {
    heading(rt, "CRC-32 of AAL5")?;
    let mut agreed = compare_packet(rt, "40 bytes of 00h", &[0; 40], 0x864D_7F99)?;
    agreed &= compare_packet(rt, "40 bytes of FFh", &[0xFF; 40], 0xC55E_457A)?;
    agreed &= compare_packet(rt, "bytes 1 to 40", COUNTING, 0xBF67_1ED0)?;
    Ok(agreed)
}
