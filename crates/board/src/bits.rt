ghost use Rattle.std.specs.Prelude.{◌≡◌, ◌<◌};
ghost use Rattle.rules.specs.Bits.{has as has_bit, with_bit};

// Bits are named by their numbers, 0 the lowest. Those of byte 0 of a descriptor:
pub(crate) const HELD: u32 = 0;

pub(crate) const FIRST: u32 = 1;

pub(crate) const LAST: u32 = 2;

pub(crate) const TAKEN: u32 = 3;

// RSTAT; PRX is bit 0 of INTSTAT too.
pub(crate) const GROUP: u32 = 5;

pub(crate) const MPA: u32 = 4;

pub(crate) const OVER: u32 = 3;

pub(crate) const FAE: u32 = 2;

pub(crate) const CRC: u32 = 1;

pub(crate) const PRX: u32 = 0;

// INTSTAT.
pub(crate) const CNT: u32 = 5;

pub(crate) const OVW: u32 = 4;

pub(crate) const RXE: u32 = 2;

// RCON.
pub(crate) const SEP: u32 = 0;

pub(crate) const RUNTS: u32 = 1;

// Whether a bit of a byte is set. The station of `recogniser` has the same line: a crate for it alone is no plainer.
pub(crate) fn has(bit: u32, byte: u8) -> bool
    requires { bit < 8 }
    ensures { result ≡ has_bit bit byte }
{
    (byte >> bit) % 2 == 1
}

// Sets a bit of a byte.
pub(crate) fn set(byte: &mut u8, bit: u32)
    requires { bit < 8 }
    ensures { byte.new ≡ with_bit bit byte.old }
{
    *byte |= 1 << bit;
}
