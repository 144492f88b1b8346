ghost use Rattle.std.specs.Prelude.{◌≡◌};
ghost use Rattle.board.specs.Shown.{seen};
ghost use Rattle.rules.specs.Arrivals.{matched as matched_registers, mismatched, kept, is_runt, finished, overrun as overrun_state};

use crate::bits::{CRC, FAE, OVER, PRX, RUNTS, RXE, SEP, has, set};
use crate::chip::Chip;
use crate::counters::{count, count_lost};
use crate::descriptor::{keep_run, next};
use crate::round::Round;
use memory::memory::Memory;
use rules::state::{LastByte, Phase, Registers, Setup, State, Stored};

const SHORTEST_FRAME: u8 = 64;

fn matched(r: &mut Registers)
    ensures { r.new ≡ matched_registers r.old }
{
    set(&mut r.rstat, PRX);
    set(&mut r.intstat, PRX);
}

fn mismatch(r: &mut Registers, last: LastByte)
    ensures { r.new ≡ mismatched last r.old }
{
    match last {
        LastByte::Ragged => {
            set(&mut r.rstat, FAE);
            count(&mut r.alicnt, &mut r.intstat);
        }
        LastByte::Whole => {
            set(&mut r.rstat, CRC);
            count(&mut r.crccnt, &mut r.intstat);
        }
    }
}

fn runt(g: &Setup, t: &Stored) -> bool
    ensures { result ≡ is_runt g.now t.now }
{
    t.total < SHORTEST_FRAME && !has(RUNTS, g.rcon)
}

// A function of its own, as `miss` is: they share `count_lost`, and differ in bits and phase.
pub(crate) fn overrun(s: &mut State)
    ensures { s.new ≡ overrun_state s.old }
{
    count_lost(&mut s.registers, OVER, RXE);
    s.phase = Phase::Idle;
}

impl<M: Memory> Chip<M> {
    // Keeps the arrival, with the registers as they are.
    fn keep(&mut self, g: &Setup, t: Stored)
        ensures { seen M.Memory.bytes self.new ≡ kept g.now (seen M.Memory.bytes self.old) t self.old.state.registers }
    {
        let run = Round::new(g, self.state.curr, t.used);
        keep_run(&mut self.memory, run, t.filled, self.state.registers.rstat);
        self.state.curr = next(g, t.latest);
        self.state.phase = Phase::Idle;
    }

    // The end of a storing arrival.
    pub(crate) fn finish(&mut self, g: &Setup, t: Stored, last: LastByte)
        ensures { seen M.Memory.bytes self.new ≡ finished g.now (seen M.Memory.bytes self.old) t last }
    {
        if runt(g, &t) {
            self.state.phase = Phase::Idle;
        } else if crc::matches(self.state.crc) {
            matched(&mut self.state.registers);
            self.keep(g, t);
        } else {
            mismatch(&mut self.state.registers, last);
            if has(SEP, g.rcon) {
                set(&mut self.state.registers.intstat, RXE);
                self.keep(g, t);
            } else {
                self.state.phase = Phase::Idle;
            }
        }
    }
}
