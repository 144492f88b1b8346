mod accepts;

/// A station's own address, its switches and its group table.
#[derive(Clone, Copy)]
pub struct Station {
    /// The station's address.
    pub address: [u8; 6],
    /// Bit 4 is PROM, bit 3 GROUP, bit 2 BROAD; the others are ignored.
    pub switches: u8,
    /// The group table: a bit for each index from 0 to 63.
    pub table: [u8; 8],
}
