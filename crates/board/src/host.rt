ghost use Rattle.std.specs.Prelude.{◌≡◌, length, Ok, Some, slice_set};
ghost use Rattle.memory.specs.Memory.{read_answer, write_answer};
ghost use Rattle.rules.specs.Views.{view};
ghost use Rattle.rules.specs.Host.{take_judged, take_answer, take_after, take_out, release_judged, release_answer, release_after};
ghost use Rattle.board.specs.Shown.{seen, shown_with};

use crate::bits::{FIRST, HELD, TAKEN, has};
use crate::chip::Chip;
use crate::copying::copy_run;
use crate::descriptor::{descriptor, lawful};
use crate::round::Round;
use crate::runs::{clear, mark_taken, run};
use memory::address::Address;
use memory::memory::Memory;
use refusal::Refusal;
use rules::state::{Run, Setup};

// The calls of the host, on a chip and what its open fixed.
impl<M: Memory> Chip<M> {
    // The frame at HOST, for a buffer of `room` bytes.
    fn takeable(&self, g: &Setup, room: usize) -> Result<Run, Refusal>
        ensures { result ≡ take_judged (shown_with (Some g.now) (seen M.Memory.bytes self.now)) room }
    {
        let d = self.state.host;
        let e = descriptor(&self.memory, g, d);
        if !lawful(g, &e) {
            return Err(Refusal::Broken(d));
        }
        if !(has(HELD, e.flags) && !has(TAKEN, e.flags)) {
            return Err(Refusal::NoFrame);
        }
        let frame = run(&self.memory, g, d, false)?;
        if frame.length as usize <= room {
            Ok(frame)
        } else {
            Err(Refusal::ShortBuffer)
        }
    }

    // Hands the frame at HOST over: copies it, marks it and moves HOST past it.
    fn hand_over(&mut self, g: &Setup, frame: Run, out: &mut [u8]) -> (u8, u8, u32, u8)
        ensures answer { Ok result ≡ take_answer (shown_with (Some g.now) (seen M.Memory.bytes self.old)) (Ok frame) }
        ensures after { shown_with (Some g.now) (seen M.Memory.bytes self.new) ≡ take_after (shown_with (Some g.now) (seen M.Memory.bytes self.old)) (Ok frame) }
        ensures copied { out.new ≡ take_out (shown_with (Some g.now) (seen M.Memory.bytes self.old)) (Ok frame) out.old }
    {
        let first = self.state.host;
        let run = Round::new(g, first, frame.count);
        copy_run(&self.memory, run, out);
        self.state.host = mark_taken(&mut self.memory, run);
        (first, frame.count, frame.length, frame.status)
    }

    // Takes the frame at HOST, and answers its first descriptor, how many it has, its length and its status.
    pub(crate) fn take(
        &mut self,
        setup: &Option<Setup>,
        out: &mut [u8],
    ) -> Result<(u8, u8, u32, u8), Refusal>
        ensures answer { result ≡ take_answer (shown_with setup.now (seen M.Memory.bytes self.old)) (take_judged (shown_with setup.now (seen M.Memory.bytes self.old)) (length out.old)) }
        ensures after { shown_with setup.now (seen M.Memory.bytes self.new) ≡ take_after (shown_with setup.now (seen M.Memory.bytes self.old)) (take_judged (shown_with setup.now (seen M.Memory.bytes self.old)) (length out.old)) }
        ensures copied { out.new ≡ take_out (shown_with setup.now (seen M.Memory.bytes self.old)) (take_judged (shown_with setup.now (seen M.Memory.bytes self.old)) (length out.old)) out.old }
    {
        let g = setup.as_ref().ok_or(Refusal::Shut)?;
        let frame = self.takeable(g, out.len())?;
        Ok(self.hand_over(g, frame, out))
    }

    // The taken frame that starts at a descriptor.
    fn releasable(&self, g: &Setup, d: u8) -> Result<Run, Refusal>
        ensures { result ≡ release_judged (shown_with (Some g.now) (seen M.Memory.bytes self.now)) d }
    {
        if d >= g.count {
            return Err(Refusal::NotTaken);
        }
        let e = descriptor(&self.memory, g, d);
        if !lawful(g, &e) {
            return Err(Refusal::Broken(d));
        }
        if !(has(HELD, e.flags) && has(FIRST, e.flags) && has(TAKEN, e.flags)) {
            return Err(Refusal::NotTaken);
        }
        Ok(run(&self.memory, g, d, true)?)
    }

    // Frees the descriptors of the taken frame that starts at one.
    pub(crate) fn release(&mut self, setup: &Option<Setup>, d: u8) -> Result<(), Refusal>
        ensures answer { result ≡ release_answer (release_judged (shown_with setup.now (seen M.Memory.bytes self.old)) d) }
        ensures after { shown_with setup.now (seen M.Memory.bytes self.new) ≡ release_after (shown_with setup.now (seen M.Memory.bytes self.old)) d (release_judged (shown_with setup.now (seen M.Memory.bytes self.old)) d) }
    {
        let g = setup.as_ref().ok_or(Refusal::Shut)?;
        let frame = self.releasable(g, d)?;
        clear(&mut self.memory, Round::new(g, d, frame.count));
        Ok(())
    }

    // The byte at an address.
    pub(crate) fn read(&self, at: Address) -> Result<u8, Refusal>
        ensures { result ≡ read_answer (M.Memory.bytes self.now.memory) at }
    {
        self.memory.read(at)
    }

    // Replaces the byte at an address.
    pub(crate) fn write(&mut self, at: Address, value: u8) -> Result<(), Refusal>
        ensures answer { result ≡ write_answer (M.Memory.bytes self.old.memory) at }
        ensures after { seen M.Memory.bytes self.new ≡ view (slice_set (M.Memory.bytes self.old.memory) at.0 value) self.old.state }
    {
        self.memory.write(at, value)
    }
}
