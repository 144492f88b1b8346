ghost use Rattle.std.specs.Prelude.{◌<◌};

use crate::step::{Addition, Answer, Call, Outcome, Refused, Run};
use board::board::Board;
use layout::layout::Layout;
use memory::address::{Address, Page};
use memory::memory::{Bytes, Memory, Words};
use recogniser::Recogniser;
use recogniser::station::Station;
use refusal::Refusal;
use select::{Hold, Select};
use std::fmt;

/// The first step that does not answer as it should, by its number from 1. Step 0 is the setting up.
#[derive(Clone, Copy)]
pub(crate) struct Difference {
    step: usize,
    answered: Outcome,
    expected: Outcome,
}

impl fmt::Display for Difference {
    fn fmt<W: fmt::Write>(&self, f: &mut fmt::Formatter<W>) -> fmt::Result {
        let Difference {
            step,
            answered,
            expected,
        } = self;
        write!(f, "step {step} answers {answered:?}, and not {expected:?}")
    }
}

impl From<Refusal> for Difference {
    fn from(refusal: Refusal) -> Difference {
        Difference {
            step: 0,
            answered: Err(Refused::from(refusal)),
            expected: Ok(Answer::Done),
        }
    }
}

const BROAD: u8 = 0x04;

const GROUP: u8 = 0x08;

// So many bytes of FFh come.
fn bytes<M: Memory>(board: &mut Board<M, Station>, count: u8) -> Result<(), Refusal> {
    for _ in 0..count {
        board.byte(0xFF)?;
    }
    Ok(())
}

// Whether the front of a buffer is so many bytes of FFh, and the rest is 0.
fn holds_frame(out: &[u8], length: usize) -> bool {
    out.iter().take(length).all(|value| *value == 0xFF)
        && out.iter().skip(length).all(|value| *value == 0)
}

fn take<M: Memory>(board: &mut Board<M, Station>) -> Outcome {
    let mut out = [0; 16];
    let (first, count, length, status) = board.take(&mut out)?;
    if holds_frame(&out, length as usize) {
        Ok(Answer::Took(first, count, length, status))
    } else {
        Ok(Answer::OtherBytes)
    }
}

// Reads the register at an address of page 0.
fn read<M: Memory>(board: &mut Board<M, Station>, at: u8) -> Outcome {
    let mut select = Select::new();
    let hold = Hold::new(&mut select, 0);
    Ok(Answer::Value(board.read_register(&hold, at)?))
}

fn answer<M: Memory>(board: &mut Board<M, Station>, call: Call) -> Outcome {
    match call {
        Call::Begin => board.begin()?,
        Call::Bytes(count) => bytes(board, count)?,
        Call::End(last) => board.end(last)?,
        Call::Take => return take(board),
        Call::Release(descriptor) => board.release(descriptor)?,
        Call::Read(at) => return read(board, at),
    }
    Ok(Answer::Done)
}

// The layout of the bench: three buffers of four bytes. It stands in `bench` and `trials` too: a library for it is no plainer.
fn bench_layout() -> Result<Layout, Refusal> {
    let mut layout = Layout::blank();
    layout.table(512, Page(0), Page(1))?;
    layout.add(Address(256), 4)?;
    layout.add(Address(260), 4)?;
    layout.add(Address(264), 4)?;
    Ok(layout)
}

// A board with the station of the bench, opened with its layout.
fn bench_board<M: Memory + Drop>(memory: M, rcon: u8) -> Result<Board<M, Station>, Refusal> {
    let station = Station {
        address: [0; 6],
        switches: BROAD,
        table: [0; 8],
    };
    let mut board = Board::new(memory, station);
    board.open(&bench_layout()?, rcon)?;
    Ok(board)
}

fn compare(step: usize, answered: Outcome, expected: Outcome) -> Result<(), Difference> {
    if answered == expected {
        Ok(())
    } else {
        Err(Difference {
            step,
            answered,
            expected,
        })
    }
}

// A method for each memory: the cells, which differ in type and number, have to outlive the board.
impl Run {
    fn on_memory<M: Memory + Drop>(self, memory: M) -> Result<(), Difference> {
        let mut board = bench_board(memory, self.rcon)?;
        for (step, (call, expected)) in (1..).zip(self.steps) {
            compare(step, answer(&mut board, *call), *expected)?;
        }
        Ok(())
    }

    /// Goes through the run on a memory of 512 bytes.
    pub(crate) fn on_bytes(self) -> Result<(), Difference> {
        let mut cells = [0; 512];
        self.on_memory(Bytes::new(&mut cells))
    }

    /// Goes through the run on a memory of 256 words.
    pub(crate) fn on_words(self) -> Result<(), Difference> {
        let mut cells = [0; 256];
        self.on_memory(Words::new(&mut cells))
    }
}

// Whether the address is accepted with the bit of an index alone in the group table.
fn accepted_by(index: u8, address: &[u8; 6]) -> bool
    requires { index < 64 }
{
    let station = Station {
        address: [0; 6],
        switches: GROUP,
        table: (1u64 << index).to_le_bytes(),
    };
    station.accepts(address)
}

/// Looks at six bytes as an address and as a frame.
pub(crate) fn six(bytes: [u8; 6], expected: Outcome) -> Result<(), Difference> {
    let index = (0..64).find(|index| accepted_by(*index, &bytes));
    let answered = Ok(Answer::Address(index, crc::slice_matches(&bytes)));
    compare(1, answered, expected)
}

fn add(layout: &mut Layout, addition: Addition) -> Outcome {
    layout.add(Address(addition.start), addition.length)?;
    Ok(Answer::Done)
}

/// Adds buffers to the layout of the bench.
pub(crate) fn additions(buffers: &[Addition]) -> Result<(), Difference> {
    let mut layout = bench_layout()?;
    for (step, addition) in (1..).zip(buffers) {
        compare(step, add(&mut layout, *addition), addition.outcome)?;
    }
    Ok(())
}
