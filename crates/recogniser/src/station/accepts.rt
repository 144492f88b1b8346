ghost use Rattle.std.specs.Prelude.{◌≡◌, ◌<◌};
ghost use Rattle.recogniser.specs.Bits.{bit};
ghost use Rattle.recogniser.specs.Station.{group_index, table_bit, station_members};

use super::Station;
use crate::Recogniser;

/// The bit of PROM among the switches.
const PROM: u32 = 4;

/// The bit of GROUP among the switches.
const GROUP: u32 = 3;

/// The bit of BROAD among the switches.
const BROAD: u32 = 2;

/// The broadcast address.
const BROADCAST: [u8; 6] = [0xFF; 6];

/// Whether the bit at `place` is set. The board has the same line: a crate for it alone is no plainer.
fn bit(byte: u8, place: u32) -> bool
    requires place { place < 8 }
    ensures value { result ≡ bit byte place }
{
    (byte >> place) % 2 == 1
}

/// Whether the group table has the address's bit.
fn in_table(table: &[u8; 8], address: &[u8; 6]) -> bool
    ensures value { result ≡ table_bit table.now (group_index address.now) }
{
    let index = crc::slice(crc::START, address) >> 26;
    bit(table[(index / 8) as usize], index % 8)
}

impl Recogniser for Station {
    ghost members = { station_members };

    fn accepts(&self, address: &[u8; 6]) -> bool {
        if address[0] % 2 == 0 {
            *address == self.address || bit(self.switches, PROM)
        } else if *address == BROADCAST {
            bit(self.switches, BROAD)
        } else {
            bit(self.switches, GROUP) && in_table(&self.table, address)
        }
    }
}
