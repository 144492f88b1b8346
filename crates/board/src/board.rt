ghost use Rattle.std.specs.Prelude.{◌≡◌, length, Ok};
ghost use Rattle.layout.specs.Layouts.{shape};
ghost use Rattle.rules.specs.declared.state.Event.TheVariants.{Byte, End, Abort};
ghost use Rattle.rules.specs.Arrivals.{begin_answer, begin_after, event_answer, event_after};
ghost use Rattle.rules.specs.Opening.{shut_board, opened_state, open_answer, open_after};
ghost use Rattle.rules.specs.Registers.{read_answer, read_after, write_answer, write_after, cause_answer};
ghost use Rattle.rules.specs.Host.{take_judged, take_answer, take_after, take_out, release_judged, release_answer, release_after, peek_answer, poke_answer, poke_after};
ghost use Rattle.rules.specs.Calls.Call.{begins, byte_comes, ends, aborts, takes, releases, looks};
ghost use Rattle.rules.specs.Calls.Look.{peeks, reads, writes, asks_cause};
ghost use Rattle.rules.specs.Law.{Keeps, Opened, ReadsBackFrom, plainly, received};
ghost use Rattle.board.specs.Shown.{shown};

use crate::arrival::idle;
use crate::chip::Chip;
use crate::opening::describe;
use layout::layout::Layout;
use memory::address::Address;
use memory::memory::Memory;
use recogniser::Recogniser;
use refusal::Refusal;
use rules::state::{Event, Fault, LastByte, Phase, Registers, Setup, State};
use select::Hold;

/// The receive side of the board, over a memory and a recogniser.
#[derive(Drop)]
pub struct Board<M, R> {
    chip: Chip<M>,
    recogniser: R,
    /// What the latest open fixed; none where the board was never opened.
    setup: Option<Setup>,
}

// The state that an open starts from.
fn opened() -> State
    ensures { result ≡ opened_state }
{
    let registers = Registers {
        rstat: 0,
        intstat: 0,
        intmask: 0,
        alicnt: 0,
        crccnt: 0,
        mpcnt: 0,
    };
    State {
        registers,
        curr: 0,
        host: 0,
        crc: 0,
        phase: Phase::Idle,
    }
}

// Each call says that the recogniser stays: that relates two states, so no field or invariant of the type can say it.
impl<M: Memory, R: Recogniser> Board<M, R> {
    /// A board over a memory and a recogniser. It is shut.
    pub fn new(memory: M, recogniser: R) -> Board<M, R>
        ensures value { shown M.Memory.bytes result ≡ shut_board (M.Memory.bytes memory) }
        ensures memory { result.chip.memory ≡ memory }
        ensures same { result.recogniser ≡ recogniser }
    {
        let chip = Chip {
            memory,
            state: opened(),
        };
        Board {
            chip,
            recogniser,
            setup: None,
        }
    }

    // Whether the board can be opened with a layout and RCON. These come to `open` apart, so a struct of them would be made
    // and taken apart for its two halves.
    fn openable(&self, layout: &Layout, rcon: u8) -> Result<(), Refusal>
        ensures { result ≡ open_answer (length (M.Memory.bytes self.now.chip.memory)) (shape layout.now) rcon }
    {
        if layout.buffers().len() == 0 {
            return Err(Refusal::NoBuffer);
        }
        if layout.size() as usize != self.chip.memory.size() {
            return Err(Refusal::OtherSize);
        }
        if rcon >= 4 {
            return Err(Refusal::BadRcon);
        }
        Ok(())
    }

    // Writes the descriptors, and starts over.
    fn start_over(&mut self, layout: &Layout, rcon: u8)
        ensures after { shown M.Memory.bytes self.new ≡ open_after (Ok tt) (shown M.Memory.bytes self.old) (shape layout.now) rcon }
        ensures same { self.new.recogniser ≡ self.old.recogniser }
    {
        let buffers = layout.buffers();
        describe(&mut self.chip.memory, layout.rbegin(), buffers);
        self.setup = Some(Setup {
            size: layout.size(),
            rbegin: layout.rbegin(),
            rend: layout.rend(),
            count: buffers.len() as u8,
            rcon,
        });
        self.chip.state = opened();
    }

    /// Opens the board with a layout and RCON, and starts over: a descriptor is written for each buffer.
    pub fn open(&mut self, layout: &Layout, rcon: u8) -> Result<(), Refusal>
        ensures answer { result ≡ open_answer (length (M.Memory.bytes self.old.chip.memory)) (shape layout.now) rcon }
        ensures after { shown M.Memory.bytes self.new ≡ open_after result (shown M.Memory.bytes self.old) (shape layout.now) rcon }
        ensures same { self.new.recogniser ≡ self.old.recogniser }
        ensures starts { Opened (R.Recogniser.members self.old.recogniser) layout.now rcon result (shown M.Memory.bytes self.new) }
    {
        self.openable(layout, rcon)?;
        self.start_over(layout, rcon);
        Ok(())
    }

    /// Begins an arrival.
    pub fn begin(&mut self) -> Result<(), Refusal>
        ensures answer { result ≡ begin_answer (shown M.Memory.bytes self.old) }
        ensures after { shown M.Memory.bytes self.new ≡ begin_after (shown M.Memory.bytes self.old) }
        ensures same { self.new.recogniser ≡ self.old.recogniser }
        ensures keeps { Keeps (R.Recogniser.members self.old.recogniser) begins (plainly result) (shown M.Memory.bytes self.old) (shown M.Memory.bytes self.new) }
    {
        self.chip.start(&self.setup)
    }

    /// A byte of the arrival comes from the line.
    #[inline]
    pub fn byte(&mut self, value: u8) -> Result<(), Refusal>
        ensures answer { result ≡ event_answer (shown M.Memory.bytes self.old) }
        ensures after { shown M.Memory.bytes self.new ≡ event_after (R.Recogniser.members self.old.recogniser) (shown M.Memory.bytes self.old) (Byte value) }
        ensures same { self.new.recogniser ≡ self.old.recogniser }
        ensures keeps { Keeps (R.Recogniser.members self.old.recogniser) (byte_comes value) (plainly result) (shown M.Memory.bytes self.old) (shown M.Memory.bytes self.new) }
    {
        self.chip
            .event(&self.setup, &self.recogniser, Event::Byte(value))
    }

    /// The arrival ends.
    pub fn end(&mut self, last: LastByte) -> Result<(), Refusal>
        ensures answer { result ≡ event_answer (shown M.Memory.bytes self.old) }
        ensures after { shown M.Memory.bytes self.new ≡ event_after (R.Recogniser.members self.old.recogniser) (shown M.Memory.bytes self.old) (End last) }
        ensures same { self.new.recogniser ≡ self.old.recogniser }
        ensures keeps { Keeps (R.Recogniser.members self.old.recogniser) (ends last) (plainly result) (shown M.Memory.bytes self.old) (shown M.Memory.bytes self.new) }
    {
        self.chip
            .event(&self.setup, &self.recogniser, Event::End(last))
    }

    /// The arrival is aborted.
    pub fn abort(&mut self, fault: Fault) -> Result<(), Refusal>
        ensures answer { result ≡ event_answer (shown M.Memory.bytes self.old) }
        ensures after { shown M.Memory.bytes self.new ≡ event_after (R.Recogniser.members self.old.recogniser) (shown M.Memory.bytes self.old) (Abort fault) }
        ensures same { self.new.recogniser ≡ self.old.recogniser }
        ensures keeps { Keeps (R.Recogniser.members self.old.recogniser) (aborts fault) (plainly result) (shown M.Memory.bytes self.old) (shown M.Memory.bytes self.new) }
    {
        self.chip
            .event(&self.setup, &self.recogniser, Event::Abort(fault))
    }

    /// Takes the frame at HOST: copies it to the front of the caller's buffer, and answers its first descriptor,
    /// how many descriptors it has, its length and its status.
    pub fn take(&mut self, out: &mut [u8]) -> Result<(u8, u8, u32, u8), Refusal>
        ensures answer { result ≡ take_answer (shown M.Memory.bytes self.old) (take_judged (shown M.Memory.bytes self.old) (length out.old)) }
        ensures after { shown M.Memory.bytes self.new ≡ take_after (shown M.Memory.bytes self.old) (take_judged (shown M.Memory.bytes self.old) (length out.old)) }
        ensures copied { out.new ≡ take_out (shown M.Memory.bytes self.old) (take_judged (shown M.Memory.bytes self.old) (length out.old)) out.old }
        ensures same { self.new.recogniser ≡ self.old.recogniser }
        ensures keeps { Keeps (R.Recogniser.members self.old.recogniser) (takes (length out.old)) (received result out.new) (shown M.Memory.bytes self.old) (shown M.Memory.bytes self.new) }
        ensures reads_back { ReadsBackFrom (R.Recogniser.members self.old.recogniser) (shown M.Memory.bytes self.old) result out.new }
    {
        self.chip.take(&self.setup, out)
    }

    /// Releases the buffers of the taken frame that starts at a descriptor.
    pub fn release(&mut self, d: u8) -> Result<(), Refusal>
        ensures answer { result ≡ release_answer (release_judged (shown M.Memory.bytes self.old) d) }
        ensures after { shown M.Memory.bytes self.new ≡ release_after (shown M.Memory.bytes self.old) d (release_judged (shown M.Memory.bytes self.old) d) }
        ensures same { self.new.recogniser ≡ self.old.recogniser }
        ensures keeps { Keeps (R.Recogniser.members self.old.recogniser) (releases d) (plainly result) (shown M.Memory.bytes self.old) (shown M.Memory.bytes self.new) }
    {
        self.chip.release(&self.setup, d)
    }

    /// The byte at an address of board memory.
    pub fn peek(&self, at: Address) -> Result<u8, Refusal>
        ensures answer { result ≡ peek_answer (shown M.Memory.bytes self.now) at.0 }
        ensures keeps { Keeps (R.Recogniser.members self.now.recogniser) (looks (peeks at.0)) (plainly result) (shown M.Memory.bytes self.now) (shown M.Memory.bytes self.now) }
    {
        self.chip.read(at)
    }

    /// Replaces the byte at an address of board memory, while no arrival is under way.
    pub fn poke(&mut self, at: Address, value: u8) -> Result<(), Refusal>
        ensures answer { result ≡ poke_answer (shown M.Memory.bytes self.old) at.0 }
        ensures after { shown M.Memory.bytes self.new ≡ poke_after (shown M.Memory.bytes self.old) at.0 value }
        ensures same { self.new.recogniser ≡ self.old.recogniser }
    {
        if !idle(&self.chip.state.phase) {
            return Err(Refusal::UnderWay);
        }
        self.chip.write(at, value)
    }

    /// Reads the register at an address of the page that is held. Reading a counter sets it to 0.
    pub fn read_register(&mut self, hold: &Hold, at: u8) -> Result<u8, Refusal>
        ensures answer { result ≡ read_answer (shown M.Memory.bytes self.old) hold.now.select.now.page at }
        ensures after { shown M.Memory.bytes self.new ≡ read_after (shown M.Memory.bytes self.old) hold.now.select.now.page at }
        ensures same { self.new.recogniser ≡ self.old.recogniser }
        ensures keeps { Keeps (R.Recogniser.members self.old.recogniser) (looks (reads hold.now.select.now.page at)) (plainly result) (shown M.Memory.bytes self.old) (shown M.Memory.bytes self.new) }
    {
        self.chip.read_at(&self.setup, hold.page(), at)
    }

    /// Writes the register at an address of the page that is held.
    pub fn write_register(&mut self, hold: &Hold, at: u8, value: u8) -> Result<(), Refusal>
        ensures answer { result ≡ write_answer (shown M.Memory.bytes self.old) hold.now.select.now.page at }
        ensures after { shown M.Memory.bytes self.new ≡ write_after (shown M.Memory.bytes self.old) hold.now.select.now.page at value }
        ensures same { self.new.recogniser ≡ self.old.recogniser }
        ensures keeps { Keeps (R.Recogniser.members self.old.recogniser) (looks (writes hold.now.select.now.page at value)) (plainly result) (shown M.Memory.bytes self.old) (shown M.Memory.bytes self.new) }
    {
        self.chip.write_at(&self.setup, hold.page(), at, value)
    }

    /// The lowest bit that is set in both INTSTAT and INTMASK, by its number.
    pub fn cause(&self) -> Result<Option<u8>, Refusal>
        ensures answer { result ≡ cause_answer (shown M.Memory.bytes self.now) }
        ensures keeps { Keeps (R.Recogniser.members self.now.recogniser) (looks asks_cause) (plainly result) (shown M.Memory.bytes self.now) (shown M.Memory.bytes self.now) }
    {
        self.chip.lowest_cause(&self.setup)
    }
}
