//! The registers, read and written through a hold.

use crate::bench::Bench;
use crate::stop::Stop;
use refusal::Refusal;
use select::Hold;

/// A register: its name, its page, and its address on that page.
#[derive(Clone, Copy)]
pub(crate) struct Register(&'static str, u8, u8);

pub(crate) const INTSTAT: Register = Register("INTSTAT", 0, 0x17);

const RSTAT: Register = Register("RSTAT", 0, 0x1C);

pub(crate) const ALICNT: Register = Register("ALICNT", 0, 0x1D);

pub(crate) const CRCCNT: Register = Register("CRCCNT", 0, 0x1E);

pub(crate) const MPCNT: Register = Register("MPCNT", 0, 0x1F);

pub(crate) const RBEGIN: Register = Register("RBEGIN", 2, 0x11);

pub(crate) const REND: Register = Register("REND", 2, 0x12);

pub(crate) const RCON: Register = Register("RCON", 2, 0x1C);

/// INTMASK as it is read.
pub(crate) const INTMASK: Register = Register("INTMASK", 2, 0x1F);

/// INTMASK as it is written.
pub(crate) const INTMASK_WRITE: Register = Register("INTMASK", 0, 0x1F);

impl<P: Print> Bench<'_, P> {
    fn value(&mut self, register: Register) -> Result<u8, Refusal> {
        let Register(_, page, at) = register;
        let hold = Hold::new(&mut self.select, page);
        self.board.read_register(&hold, at)
    }

    /// Prints the two registers that tell of the latest arrival.
    pub(crate) fn status(&mut self) -> Result<(), Stop> {
        let intstat = self.value(INTSTAT)?;
        let rstat = self.value(RSTAT)?;
        println!(self.rt; "INTSTAT {intstat:02X}h, RSTAT {rstat:02X}h")?;
        Ok(())
    }

    pub(crate) fn read(&mut self, register: Register) -> Result<(), Stop> {
        let Register(name, _, _) = register;
        let value = self.value(register)?;
        println!(self.rt; "read {name:<15} -> 0: {value:02X}h")?;
        Ok(())
    }

    pub(crate) fn write(&mut self, register: Register, value: u8) -> Result<(), Stop> {
        let Register(name, page, at) = register;
        let hold = Hold::new(&mut self.select, page);
        self.board.write_register(&hold, at, value)?;
        println!(self.rt; "write {name:<10} {value:02X}h -> 0")?;
        Ok(())
    }
}
