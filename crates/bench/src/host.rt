//! The calls of the host, each printed with its answer.

use crate::bench::Bench;
use crate::stop::Stop;
use layout::layout::Layout;
use memory::address::{Address, Page};

impl<P: Print> Bench<'_, P> {
    fn add(&self, layout: &mut Layout, start: u32, length: u16) -> Result<(), Stop> {
        layout.add(Address(start), length)?;
        println!(self.rt; "add {start:>5}, {length:<9} -> 0")?;
        Ok(())
    }

    /// A layout for 512 bytes: a table of one page, and three buffers of four bytes. The other programs and the tests have
    /// it too, without the printing: a library for it is no plainer.
    pub(crate) fn layout(&self) -> Result<Layout, Stop> {
        let mut layout = Layout::blank();
        layout.table(512, Page(0), Page(1))?;
        println!(self.rt; "table 512, 0 to 1    -> 0")?;
        self.add(&mut layout, 256, 4)?;
        self.add(&mut layout, 260, 4)?;
        self.add(&mut layout, 264, 4)?;
        Ok(layout)
    }

    pub(crate) fn open(&mut self, layout: &Layout, rcon: u8) -> Result<(), Stop> {
        self.board.open(layout, rcon)?;
        println!(self.rt; "open, RCON {rcon:02X}h       -> 0")?;
        Ok(())
    }

    /// Takes a frame, and prints its four numbers and its bytes.
    pub(crate) fn take(&mut self) -> Result<(), Stop> {
        let mut frame = [0; 12];
        let (first, descriptors, length, status) = self.board.take(&mut frame)?;
        println!(self.rt;
            "take                 -> 0: first {first}, descriptors {descriptors}, length {length}, status {status:02X}h"
        )?;
        print!(self.rt; "frame:")?;
        for byte in frame.iter().take(length as usize) {
            print!(self.rt; " {byte:02X}")?;
        }
        println!(self.rt)?;
        Ok(())
    }

    /// Asks for a frame where none waits, and prints the refusal.
    pub(crate) fn take_refused(&mut self) -> Result<(), Stop> {
        let mut frame = [0; 12];
        let Err(refusal) = self.board.take(&mut frame) else {
            return Err(Stop::Accepted);
        };
        // No Display for a refusal's number and place: they are printed here alone.
        println!(self.rt;
            "take                 -> {}, place {}",
            refusal.number(),
            refusal.place()
        )?;
        Ok(())
    }

    pub(crate) fn release(&mut self, descriptor: u8) -> Result<(), Stop> {
        self.board.release(descriptor)?;
        println!(self.rt; "release {descriptor:<12} -> 0")?;
        Ok(())
    }

    pub(crate) fn cause(&self) -> Result<(), Stop> {
        match self.board.cause()? {
            Some(bit) => println!(self.rt; "cause                -> 0: bit {bit}")?,
            None => println!(self.rt; "cause                -> 0: none")?,
        }
        Ok(())
    }
}
