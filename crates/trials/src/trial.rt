use board::board::Board;
use layout::layout::Layout;
use memory::address::{Address, Page};
use memory::memory::{Bytes, Memory, Words};
use recogniser::Recogniser;
use recogniser::station::Station;
use refusal::Refusal;
use rules::state::{Event, Fault, LastByte};
use select::{Hold, Select};
use std::array;
use std::process::Abort;

pub(crate) const INTSTAT: Call = Call::Read(0, 0x17);

pub(crate) const RSTAT: Call = Call::Read(0, 0x1C);

pub(crate) const ALICNT: Call = Call::Read(0, 0x1D);

pub(crate) const CRCCNT: Call = Call::Read(0, 0x1E);

pub(crate) const MPCNT: Call = Call::Read(0, 0x1F);

pub(crate) const WHOLE: Event = Event::End(LastByte::Whole);

pub(crate) const RAGGED: Event = Event::End(LastByte::Ragged);

pub(crate) const COLLISION: Event = Event::Abort(Fault::Collision);

pub(crate) const OVERRUN: Event = Event::Abort(Fault::Overrun);

/// A station with BROAD set.
pub(crate) const BROADCAST: Station = Station {
    address: [0x02, 0, 0, 0, 0, 0x01],
    switches: 0x04,
    table: [0; 8],
};

/// A layout that a board is opened with. The lists name it, so it is a value.
#[derive(Clone, Copy)]
pub(crate) enum Plan {
    /// No table and no buffer.
    Blank,
    /// 512 bytes, a table on page 0, and the buffers (256, 4), (260, 4) and (264, 4).
    Three,
    /// 512 bytes, a table on page 0, and the buffer (256, 256).
    One,
    /// As `Three`, in 768 bytes.
    Larger,
}

/// A call on a board, on its select record, or on the caller's buffer. The lists have calls with their answers, so they
/// are values.
#[derive(Clone, Copy)]
pub(crate) enum Call {
    Open(Plan, u8),
    Begin,
    /// The same byte, so many times.
    Bytes(u8, u16),
    Line(Event),
    /// So many whole arrivals of FFh bytes: how many bytes each has, and how it closes.
    Arrivals(u16, u16, Event),
    /// A take to the first bytes of the caller's buffer, so many of them.
    Take(usize),
    Release(u8),
    Peek(u32),
    Poke(u32, u8),
    /// Reads a register, by its page and its address.
    Read(u8, u8),
    /// Writes a register, by its page and its address.
    Write(u8, u8, u8),
    Cause,
    /// Selects a page.
    Select(u8),
    /// The page that is selected.
    Selected,
    /// The bytes of a descriptor of the table on page 0. In the first, bit 0 is HELD, bit 1 FIRST, bit 2 LAST and bit 3 TAKEN.
    Descriptor(u8),
    /// The caller's buffer, all 7 at first.
    Buffer,
}

/// What an accepted call answers.
#[derive(Clone, Copy, PartialEq, Debug)]
pub(crate) enum Answer {
    Accepted,
    Value(u8),
    /// The four numbers of a frame.
    Frame(u8, u8, u32, u8),
    Bit(Option<u8>),
    Described([u8; 8]),
    Holds([u8; 12]),
}

/// A refusal's number and place: the numbers are the rules', so they stand in the lists. The same as in `example_runs`: a
/// library for it alone is no plainer.
#[derive(Clone, Copy, PartialEq, Debug)]
pub(crate) struct Refused(pub u8, pub u32);

impl From<Refusal> for Refused {
    fn from(refusal: Refusal) -> Refused {
        Refused(refusal.number(), refusal.place())
    }
}

/// What a call answers.
pub(crate) type Outcome = Result<Answer, Refused>;

// The buffers of the bench, which `bench` and `example_runs` have too: a library for them is no plainer.
fn three_buffers(layout: &mut Layout, size: u32) -> Result<(), Refusal> {
    layout.table(size, Page(0), Page(1))?;
    layout.add(Address(256), 4)?;
    layout.add(Address(260), 4)?;
    layout.add(Address(264), 4)
}

fn layout(plan: Plan) -> Result<Layout, Refusal> {
    let mut layout = Layout::blank();
    match plan {
        Plan::Blank => {}
        Plan::Three => three_buffers(&mut layout, 512)?,
        Plan::Larger => three_buffers(&mut layout, 768)?,
        Plan::One => {
            layout.table(512, Page(0), Page(1))?;
            layout.add(Address(256), 256)?;
        }
    }
    Ok(layout)
}

/// What the calls are made on: a board, its select record and the caller's buffer.
#[derive(Drop)]
struct Bench<M, R> {
    board: Board<M, R>,
    select: Select,
    buffer: [u8; 12],
}

impl<M: Memory, R: Recogniser> Bench<M, R> {
    fn new(memory: M, recogniser: R) -> Bench<M, R> {
        Bench {
            board: Board::new(memory, recogniser),
            select: Select::new(),
            buffer: [7; 12],
        }
    }

    fn bytes(&mut self, value: u8, count: u16) -> Result<(), Refusal> {
        for _ in 0..count {
            self.board.byte(value)?;
        }
        Ok(())
    }

    fn line(&mut self, event: Event) -> Result<(), Refusal> {
        match event {
            Event::Byte(value) => self.board.byte(value),
            Event::End(last) => self.board.end(last),
            Event::Abort(fault) => self.board.abort(fault),
        }
    }

    fn arrivals(&mut self, count: u16, length: u16, close: Event) -> Result<(), Refusal> {
        for _ in 0..count {
            self.board.begin()?;
            self.bytes(0xFF, length)?;
            self.line(close)?;
        }
        Ok(())
    }

    fn take(&mut self, room: usize) -> Outcome {
        let out = &mut self.buffer[0..room.min(12)];
        let (first, descriptors, length, status) = self.board.take(out)?;
        Ok(Answer::Frame(first, descriptors, length, status))
    }

    fn read(&mut self, page: u8, at: u8) -> Outcome {
        let hold = Hold::new(&mut self.select, page);
        Ok(Answer::Value(self.board.read_register(&hold, at)?))
    }

    fn write(&mut self, page: u8, at: u8, value: u8) -> Result<(), Refusal> {
        let hold = Hold::new(&mut self.select, page);
        self.board.write_register(&hold, at, value)
    }

    // The same as in `bench`: a library for it alone is no plainer.
    fn descriptor(&self, number: u8) -> Result<[u8; 8], Refusal> {
        let start = 8 * number as u32;
        array::try_from_fn(|at| self.board.peek(Address(start + at as u32)))
    }

    fn play(&mut self, call: Call) -> Outcome {
        match call {
            Call::Open(plan, rcon) => self.board.open(&layout(plan)?, rcon)?,
            Call::Begin => self.board.begin()?,
            Call::Bytes(value, count) => self.bytes(value, count)?,
            Call::Line(event) => self.line(event)?,
            Call::Arrivals(count, length, close) => self.arrivals(count, length, close)?,
            Call::Take(room) => return self.take(room),
            Call::Release(descriptor) => self.board.release(descriptor)?,
            Call::Peek(at) => return Ok(Answer::Value(self.board.peek(Address(at))?)),
            Call::Poke(at, value) => self.board.poke(Address(at), value)?,
            Call::Read(page, at) => return self.read(page, at),
            Call::Write(page, at, value) => self.write(page, at, value)?,
            Call::Cause => return Ok(Answer::Bit(self.board.cause()?)),
            Call::Select(page) => self.select.select(page),
            Call::Selected => return Ok(Answer::Value(self.select.page())),
            Call::Descriptor(number) => return Ok(Answer::Described(self.descriptor(number)?)),
            Call::Buffer => return Ok(Answer::Holds(self.buffer)),
        }
        Ok(Answer::Accepted)
    }
}

fn trial<M: Memory + Drop, R: Recogniser + Drop>(
    rt: &impl Abort,
    name: &str,
    mut bench: Bench<M, R>,
    steps: &[(Call, Outcome)],
) {
    for (i, (call, expected)) in steps.iter().enumerate() {
        assert_eq!(rt; bench.play(*call), *expected, "on {name}, step {i}");
    }
}

// A function for each memory: the cells, which differ in type and number, have to outlive the board.

/// Plays the calls over byte memory, from a shut board on.
pub(crate) fn on_bytes<R: Recogniser + Drop>(
    rt: &impl Abort,
    recogniser: R,
    steps: &[(Call, Outcome)],
) {
    let mut cells = [0; 512];
    let bench = Bench::new(Bytes::new(&mut cells), recogniser);
    trial(rt, "byte memory", bench, steps);
}

/// Plays the calls over word memory, from a shut board on.
pub(crate) fn on_words<R: Recogniser + Drop>(
    rt: &impl Abort,
    recogniser: R,
    steps: &[(Call, Outcome)],
) {
    let mut cells = [0; 256];
    let bench = Bench::new(Words::new(&mut cells), recogniser);
    trial(rt, "word memory", bench, steps);
}

// The runtime, the recogniser and the steps stay parameters: a struct of them would be made in each test for one call.

/// Plays the calls over both memories.
pub(crate) fn on_both<R: Recogniser + Copy>(
    rt: &impl Abort,
    recogniser: R,
    steps: &[(Call, Outcome)],
) {
    on_bytes(rt, recogniser, steps);
    on_words(rt, recogniser, steps);
}
