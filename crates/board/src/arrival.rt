ghost use Rattle.std.specs.Prelude.{◌≡◌, ℕ, Bool, List};
ghost use Rattle.rules.specs.Views.{view, idle as is_idle};
ghost use Rattle.rules.specs.Arrivals.{began, recognised_state, address_in, handled, arrives, begin_answer, begin_after, event_answer, event_after};
ghost use Rattle.board.specs.Shown.{seen, shown_with};
ghost use Rattle.board.specs.Dues.{asked, carried, left_done};

use crate::bits::{GROUP, has, set};
use crate::chip::Chip;
use crate::ending::overrun;
use crate::storing::store_further;
use memory::memory::Memory;
use recogniser::Recogniser;
use refusal::Refusal;
use rules::state::{Event, Fault, LastByte, Phase, Setup, State, Stored};

pub(crate) fn idle(phase: &Phase) -> bool
    ensures { result ≡ is_idle phase.now }
{
    matches!(phase, Phase::Idle)
}

fn begin(s: &mut State)
    ensures { s.new ≡ began s.old }
{
    s.registers.rstat = 0;
    s.crc = crc::START;
    s.phase = Phase::Address {
        bytes: [0; 6],
        count: 0,
    };
}

fn recognise(s: &mut State, address: &[u8; 6])
    ensures { s.new ≡ recognised_state s.old address.now }
{
    if has(0, address[0]) {
        set(&mut s.registers.rstat, GROUP);
    }
    s.phase = Phase::Storing(Stored {
        used: 0,
        latest: 0,
        start: 0,
        length: 0,
        filled: 0,
        total: 0,
    });
}

// What an event asks beyond the next place for its byte. It is rare, and kept out of the match on phase and event, so
// that a byte costs little more than its place. An enum, since a function may not make a closure and hand it out.
#[derive(Clone, Copy)]
enum Due {
    /// The sixth byte has come: the recogniser is asked.
    Recognition(u8),
    /// A byte has no place in the latest buffer: the next one is needed.
    Buffer(u8),
    /// A storing arrival has ended: it is kept or dropped.
    Verdict(LastByte),
}

// Sets a byte of the address aside, if it is not the sixth. The two fields are borrowed one after the other, since both
// at once have no generated proof.
fn set_aside(s: &mut State, value: u8) -> Option<Due>
    ensures { (g : Setup) (among : List ℕ → Bool) (m : List ℕ) → left_done g among (view m s.new) result ≡ address_in g among (view m s.old) s.old.phase value }
{
    let Phase::Address { bytes: _, count } = &mut s.phase else {
        return None;
    };
    let at = *count;
    if at >= 5 {
        return Some(Due::Recognition(value));
    }
    *count = at + 1;
    if let Phase::Address { bytes, count: _ } = &mut s.phase {
        bytes[at as usize] = value;
    }
    None
}

// What an event does at once in the phase that it finds, and what it leaves to be done.
#[inline]
fn act<M: Memory>(m: &mut M, s: &mut State, event: Event) -> Option<Due>
    ensures { (g : Setup) (among : List ℕ → Bool) → left_done g among (view (M.Memory.bytes m.new) s.new) result ≡ handled g among (view (M.Memory.bytes m.old) s.old) s.old.phase event }
{
    match (&mut s.phase, event) {
        (Phase::Address { bytes: _, count: _ }, Event::Byte(value)) => set_aside(s, value),
        (Phase::Storing(t), Event::Byte(value)) => {
            if store_further(m, t, value) {
                None
            } else {
                Some(Due::Buffer(value))
            }
        }
        (Phase::Storing(_), Event::End(last)) => Some(Due::Verdict(last)),
        (Phase::Storing(_), Event::Abort(Fault::Overrun)) => {
            overrun(s);
            None
        }
        (Phase::Idle | Phase::Ignored | Phase::Missed, Event::Byte(_)) => None,
        (
            Phase::Idle | Phase::Address { bytes: _, count: _ } | Phase::Ignored | Phase::Missed,
            Event::End(_) | Event::Abort(_),
        )
        | (Phase::Storing(_), Event::Abort(Fault::Collision)) => {
            s.phase = Phase::Idle;
            None
        }
    }
}

impl<M: Memory> Chip<M> {
    // Setup and recogniser come by shared borrows of their own, which say that both stay.

    // Asks the recogniser about the address, of which the last byte has come.
    fn ask<R: Recogniser>(&mut self, g: &Setup, r: &R, value: u8)
        ensures { seen M.Memory.bytes self.new ≡ asked g.now (R.Recogniser.members r.now) (seen M.Memory.bytes self.old) self.old.state.phase value }
    {
        let Phase::Address {
            bytes: mut bytes,
            count: _,
        } = self.state.phase
        else {
            return;
        };
        bytes[5] = value;
        if r.accepts(&bytes) {
            recognise(&mut self.state, &bytes);
            self.store_all(g, &bytes);
        } else {
            self.state.phase = Phase::Ignored;
        }
    }

    // Does what an event has left to be done.
    #[cold]
    fn carry_out<R: Recogniser>(&mut self, g: &Setup, r: &R, due: Due)
        ensures { seen M.Memory.bytes self.new ≡ carried g.now (R.Recogniser.members r.now) (seen M.Memory.bytes self.old) self.old.state.phase due }
    {
        match due {
            Due::Recognition(value) => self.ask(g, r, value),
            Due::Buffer(value) => if let Phase::Storing(full) = self.state.phase {
                self.store_fresh(g, full, value);
            },
            Due::Verdict(last) => if let Phase::Storing(stored) = self.state.phase {
                self.finish(g, stored, last);
            },
        }
    }

    // What an event does, by the phase that it finds.
    #[inline]
    fn handle<R: Recogniser>(&mut self, g: &Setup, r: &R, event: Event)
        ensures { seen M.Memory.bytes self.new ≡ handled g.now (R.Recogniser.members r.now) (seen M.Memory.bytes self.old) self.old.state.phase event }
    {
        if let Some(due) = act(&mut self.memory, &mut self.state, event) {
            self.carry_out(g, r, due);
        }
    }

    // An event of the arrival under way. The CRC register runs over a byte last, as nothing else goes by the register.
    #[inline]
    fn arrive<R: Recogniser>(&mut self, g: &Setup, r: &R, event: Event)
        ensures { seen M.Memory.bytes self.new ≡ arrives g.now (R.Recogniser.members r.now) (seen M.Memory.bytes self.old) event }
    {
        self.handle(g, r, event);
        if let Event::Byte(value) = event {
            self.state.crc = crc::byte(self.state.crc, value);
        }
    }

    // The calls of a chip are lent what its open fixed, as it may not be there: the board has it beside the chip, so that a
    // shared borrow says that it stays.

    // Begins an arrival, where none is under way.
    pub(crate) fn start(&mut self, setup: &Option<Setup>) -> Result<(), Refusal>
        ensures answer { result ≡ begin_answer (shown_with setup.now (seen M.Memory.bytes self.old)) }
        ensures after { shown_with setup.now (seen M.Memory.bytes self.new) ≡ begin_after (shown_with setup.now (seen M.Memory.bytes self.old)) }
    {
        setup.as_ref().ok_or(Refusal::Shut)?;
        if !idle(&self.state.phase) {
            return Err(Refusal::UnderWay);
        }
        begin(&mut self.state);
        Ok(())
    }

    // An event, where an arrival is under way.
    #[inline]
    pub(crate) fn event<R: Recogniser>(
        &mut self,
        setup: &Option<Setup>,
        r: &R,
        event: Event,
    ) -> Result<(), Refusal>
        ensures answer { result ≡ event_answer (shown_with setup.now (seen M.Memory.bytes self.old)) }
        ensures after { shown_with setup.now (seen M.Memory.bytes self.new) ≡ event_after (R.Recogniser.members r.now) (shown_with setup.now (seen M.Memory.bytes self.old)) event }
    {
        let g = setup.as_ref().ok_or(Refusal::Shut)?;
        if idle(&self.state.phase) {
            return Err(Refusal::NoArrival);
        }
        self.arrive(g, r, event);
        Ok(())
    }
}
