//! The session's story.

use crate::bench::Bench;
use crate::registers::{
    ALICNT, CRCCNT, INTMASK, INTMASK_WRITE, INTSTAT, MPCNT, RBEGIN, RCON, REND,
};
use crate::stop::Stop;
use recogniser::station::Station;

const BROAD: u8 = 0x04;

impl<P: Print> Bench<'_, P> {
    fn board_is_opened(&mut self) -> Result<(), Stop> {
        println!(self.rt;
            "\nThe board is opened with a table of one page and three buffers of four bytes."
        )?;
        let layout = self.layout()?;
        self.open(&layout, 0x03)?;
        self.status()?;
        self.descriptors()
    }

    fn frame_is_kept(&mut self) -> Result<(), Stop> {
        println!(self.rt;
            "\nA broadcast frame of eight bytes matches, and is kept in two buffers."
        )?;
        self.begin()?;
        self.bytes(0xFF, 8)?;
        self.end()?;
        self.status()?;
        self.descriptors()
    }

    fn frame_is_missed(&mut self) -> Result<(), Stop> {
        println!(self.rt;
            "\nOne buffer is left for a second frame: it is missed at its sixth byte."
        )?;
        self.begin()?;
        self.bytes(0xFF, 5)?;
        self.status()?;
        self.bytes(0xFF, 1)?;
        self.status()?;
        self.bytes(0xFF, 2)?;
        self.end()?;
        self.descriptors()
    }

    fn frame_is_taken(&mut self) -> Result<(), Stop> {
        println!(self.rt; "\nThe host takes the first frame.")?;
        self.take()?;
        self.descriptors()
    }

    fn frame_is_released_in_time(&mut self) -> Result<(), Stop> {
        println!(self.rt;
            "\nThe first frame is released after the fifth byte of a third: this is kept in buffers 2 and 0."
        )?;
        self.begin()?;
        self.bytes(0xFF, 5)?;
        self.release(0)?;
        self.bytes(0xFF, 3)?;
        self.end()?;
        self.status()?;
        self.descriptors()?;
        self.take()?;
        self.descriptors()
    }

    fn registers_are_read(&mut self) -> Result<(), Stop> {
        println!(self.rt;
            "\nThe host reads the counters, each of which becomes 0, and what the open has fixed."
        )?;
        self.read(ALICNT)?;
        self.read(CRCCNT)?;
        self.read(MPCNT)?;
        self.read(MPCNT)?;
        self.read(RBEGIN)?;
        self.read(REND)?;
        self.read(RCON)
    }

    fn causes_are_cleared(&mut self) -> Result<(), Stop> {
        println!(self.rt; "\nThe host sets INTMASK, and asks for the cause until none is left.")?;
        self.cause()?;
        self.write(INTMASK_WRITE, 0x35)?;
        self.read(INTMASK)?;
        self.cause()?;
        self.write(INTSTAT, 0x01)?;
        self.read(INTSTAT)?;
        self.cause()?;
        self.write(INTSTAT, 0x10)?;
        self.read(INTSTAT)?;
        self.cause()
    }
}

/// The session, on a board of 512 bytes with a station that accepts broadcast frames.
pub(crate) fn run(rt: &impl Print) -> Result<(), Stop> {
    println!(rt; "A bench session of the 83C795 receive board")?;
    let mut cells = [0; 512];
    let station = Station {
        address: [0x02, 0x00, 0x00, 0x00, 0x00, 0x01],
        switches: BROAD,
        table: [0; 8],
    };
    let mut bench = Bench::new(rt, &mut cells, station);
    bench.board_is_opened()?;
    bench.frame_is_kept()?;
    bench.frame_is_missed()?;
    bench.frame_is_taken()?;
    bench.frame_is_released_in_time()?;
    bench.registers_are_read()?;
    bench.causes_are_cleared()?;
    println!(rt; "\nNo frame waits any more.")?;
    bench.take_refused()
}
