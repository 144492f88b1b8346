//! The two conventions for one CRC.

/// The register after a message and its FCS. The catalogue of parametrised CRC algorithms
/// gives it for CRC-32/ISO-HDLC as DEBB20E3h, with its bits in reverse order.
pub(crate) const RESIDUE: u32 = 0xC704_DD7B;

/// The FCS of a register, and the register of an FCS: the conversion is its own inverse.
///
/// The proved register shifts left, starts all ones and is never inverted. The reflected
/// algorithm, by which CRC-32s are published, shifts right and inverts its register at the
/// end. So the bits stand in reverse order, and each is complemented.
pub(crate) fn converted(value: u32) -> u32 {
    !value.reverse_bits()
}
