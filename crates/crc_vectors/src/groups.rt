//! The group indexes of well-known addresses.

use crate::report::{Base, Expected, heading};
use crate::ways::Ways;
use recogniser::Recogniser;
use recogniser::station::Station;

/// The switches of a station with GROUP alone.
const GROUP: u8 = 0x08;

/// A group address with its index.
struct Group {
    index: Expected<'static>,
    address: [u8; 6],
}

/// The groups that the table decides.
const GROUPS: [Group; 6] = [
    Group {
        index: Expected {
            name: "01-80-C2-00-00-00",
            value: 25,
            source: "spanning tree, by zlib",
        },
        address: [0x01, 0x80, 0xC2, 0x00, 0x00, 0x00],
    },
    Group {
        index: Expected {
            name: "01-00-5E-00-00-01",
            value: 31,
            source: "IPv4 all hosts, by zlib",
        },
        address: [0x01, 0x00, 0x5E, 0x00, 0x00, 0x01],
    },
    Group {
        index: Expected {
            name: "33-33-00-00-00-01",
            value: 62,
            source: "IPv6 all nodes, by zlib",
        },
        address: [0x33, 0x33, 0x00, 0x00, 0x00, 0x01],
    },
    Group {
        index: Expected {
            name: "09-00-2B-00-00-0F",
            value: 23,
            source: "DEC LAT, by zlib",
        },
        address: [0x09, 0x00, 0x2B, 0x00, 0x00, 0x0F],
    },
    Group {
        index: Expected {
            name: "AB-00-04-01-00-00",
            value: 34,
            source: "DEC LAVC, by zlib",
        },
        address: [0xAB, 0x00, 0x04, 0x01, 0x00, 0x00],
    },
    Group {
        index: Expected {
            name: "FF-FF-00-00-FF-FF",
            value: 49,
            source: "top six bits of C704DD7Bh",
        },
        address: [0xFF, 0xFF, 0x00, 0x00, 0xFF, 0xFF],
    },
];

/// The group index of an address, by each way: the top six bits of the register.
fn indexes(address: &[u8; 6]) -> Ways {
    Ways::over(address).map(|register| register >> 26)
}

/// Whether a station with GROUP and this table accepts the address.
fn accepts(table: [u8; 8], address: &[u8; 6]) -> bool {
    let station = Station {
        address: [0; 6],
        switches: GROUP,
        table,
    };
    station.accepts(address)
}

impl Group {
    /// Whether the station accepts the address by the bit of its index, and by no other.
    fn decided_by_its_bit(&self) -> bool {
        let bit = 1u64 << (self.index.value % 64);
        accepts(bit.to_le_bytes(), &self.address) && !accepts((!bit).to_le_bytes(), &self.address)
    }

    /// Compares the index.
    fn compare(&self, rt: &HostRuntime) -> anyhow::Result<bool> {
        let passed = self.decided_by_its_bit();
        Ok(
            self.index
                .compare(rt, Base::Decimal, indexes(&self.address), passed)?,
        )
    }
}

/// Compares the index of the broadcast address, for which a station has a switch of its own.
fn compare_broadcast(rt: &HostRuntime) -> anyhow::Result<bool> {
    let index = Expected {
        name: "FF-FF-FF-FF-FF-FF",
        value: 63,
        source: "broadcast, Linux drivers dm9000 and tulip",
    };
    Ok(index.compare(rt, Base::Decimal, indexes(&[0xFF; 6]), true)?)
}

/// Compares every index.
pub(crate) fn compare(rt: &HostRuntime) -> anyhow::Result<bool> {
    heading(rt, "group index")?;
    let mut agreed = compare_broadcast(rt)?;
    for group in &GROUPS {
        agreed &= group.compare(rt)?;
    }
    Ok(agreed)
}
