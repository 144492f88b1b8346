//! A second CRC-32, by the reflected algorithm, one bit at a time and without a table.

/// The polynomial 04C11DB7h with its bits in reverse order.
const POLYNOMIAL: u32 = 0xEDB8_8320;

/// The register after one more byte.
fn after(register: u32, value: u8) -> u32 {
    let mut current = register ^ u32::from(value);
    for _ in 0..8 {
        let carry = current % 2 == 1;
        current >>= 1;
        if carry {
            current ^= POLYNOMIAL;
        }
    }
    current
}

/// The CRC-32 of the bytes.
pub(crate) fn checksum(bytes: &[u8]) -> u32 {
    !bytes
        .iter()
        .fold(0xFFFF_FFFF, |register, value| after(register, *value))
}
