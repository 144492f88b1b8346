//! The receive table, as a host sees it through peek.

use crate::bench::Bench;
use crate::stop::Stop;
use memory::address::{Address, Page};
use refusal::Refusal;
use std::{array, fmt};

const RBEGIN: Page = Page(0);

const DESCRIPTORS: u8 = 3;

const HELD: u8 = 0x01;

const FIRST: u8 = 0x02;

const LAST: u8 = 0x04;

const TAKEN: u8 = 0x08;

/// The flags of a descriptor.
#[derive(Drop)]
struct Flags(u8);

impl Flags {
    // The flag's name where it is set.
    fn name(&self, flag: u8, name: &'static str) -> &'static str {
        if self.0 & flag == 0 { "" } else { name }
    }
}

impl fmt::Display for Flags {
    fn fmt<W: fmt::Write>(&self, f: &mut fmt::Formatter<W>) -> fmt::Result {
        let owner = if self.0 & HELD == 0 { "free" } else { "HELD" };
        let first = self.name(FIRST, "FIRST");
        let last = self.name(LAST, "LAST");
        let taken = self.name(TAKEN, "TAKEN");
        write!(f, "{owner} {first:<5} {last:<4} {taken:<5}")
    }
}

impl<P: Print> Bench<'_, P> {
    // The eight bytes of a descriptor. The same as in `trials`: a library for it alone is no plainer.
    fn descriptor(&self, number: u8) -> Result<[u8; 8], Refusal> {
        let start = RBEGIN.start().0 + 8 * number as u32;
        array::try_from_fn(|at| self.board.peek(Address(start + at as u32)))
    }

    fn row(&self, number: u8) -> Result<(), Stop> {
        let [
            flags,
            status,
            start_low,
            start_high,
            length_low,
            length_high,
            fill_low,
            fill_high,
        ] = self.descriptor(number)?;
        let flags = Flags(flags);
        let start = u16::from_le_bytes([start_low, start_high]);
        let length = u16::from_le_bytes([length_low, length_high]);
        let fill = u16::from_le_bytes([fill_low, fill_high]);
        println!(self.rt;
            "{number:>10}  {flags}  {status:02X}h     {start:>5}  {length:>6}  {fill:>4}"
        )?;
        Ok(())
    }

    /// Prints the descriptors as a table.
    pub(crate) fn descriptors(&self) -> Result<(), Stop> {
        println!(self.rt; "descriptor  flags                  status  start  length  fill")?;
        for number in 0..DESCRIPTORS {
            self.row(number)?;
        }
        Ok(())
    }
}
