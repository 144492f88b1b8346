//! The start of the table of logical addresses in the data sheet of the AMD Am7990 (LANCE).
//!
//! Its index is the lowest six bits of the register, in reverse order.

use crate::report::{Base, Expected, heading};
use crate::ways::Ways;

/// The first byte of the address with each index from 0 on; the other five are 0.
const FIRST_BYTES: &[u8; 16] = b"\x85\xA5\xE5\xC5\x45\x65\x25\x05\x2B\x0B\x4B\x6B\xEB\xCB\x8B\xAB";

/// Compares the filter index of an address.
fn compare_address(rt: &HostRuntime, first: u8, value: u32) -> anyhow::Result<bool> {
    let name = format!(in rt.alloc(); "{first:02X}-00-00-00-00-00")?;
    let ways = Ways::over(&[first, 0, 0, 0, 0, 0]).map(|register| register.reverse_bits() >> 26);
    let index = Expected {
        name: name.as_str(),
        value,
        source: "AMD Am7990 data sheet",
    };
    Ok(index.compare(rt, Base::Decimal, ways, true)?)
}

/// Compares every address.
pub(crate) fn compare(rt: &HostRuntime) -> anyhow::Result<bool> {
    heading(rt, "LANCE filter index")?;
    let mut agreed = true;
    for (index, first) in (0u32..).zip(FIRST_BYTES.iter()) {
        agreed &= compare_address(rt, *first, index)?;
    }
    Ok(agreed)
}
