//! The calls of the line, each printed with its answer.

use crate::bench::Bench;
use crate::stop::Stop;
use rules::state::LastByte;

impl<P: Print> Bench<'_, P> {
    pub(crate) fn begin(&mut self) -> Result<(), Stop> {
        self.board.begin()?;
        println!(self.rt; "begin                -> 0")?;
        Ok(())
    }

    /// The same byte comes several times.
    pub(crate) fn bytes(&mut self, value: u8, count: u8) -> Result<(), Stop> {
        for _ in 0..count {
            self.board.byte(value)?;
        }
        println!(self.rt; "byte {value:02X}h x {count:<9} -> 0")?;
        Ok(())
    }

    /// The last byte was whole.
    pub(crate) fn end(&mut self) -> Result<(), Stop> {
        self.board.end(LastByte::Whole)?;
        println!(self.rt; "end, whole           -> 0")?;
        Ok(())
    }
}
