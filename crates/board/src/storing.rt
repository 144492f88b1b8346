ghost use Rattle.std.specs.Prelude.{◌≡◌, ◌+◌, if◌then◌else◌, nat_lt, slice_set};
ghost use Rattle.board.specs.Shown.{seen};
ghost use Rattle.rules.specs.Arrivals.{missed, wanted as wanted_next, further, store_fresh as stored_fresh, store_in as stored_in, store_all as all_stored};

use crate::bits::{HELD, MPA, OVW, has};
use crate::chip::Chip;
use crate::counters::{count_lost, up};
use crate::descriptor::{descriptor, lawful, next, put};
use memory::address::Address;
use memory::memory::Memory;
use rules::state::{Phase, Setup, State, Stored};

// A function of its own, as `overrun` is: they share `count_lost`, and differ in bits and phase.
pub(crate) fn miss(s: &mut State)
    ensures { s.new ≡ missed s.old }
{
    count_lost(&mut s.registers, MPA, OVW);
    s.phase = Phase::Missed;
}

fn wanted(g: &Setup, s: &State, t: &Stored) -> u8
    ensures { result ≡ wanted_next g.now s.now t.now }
{
    if t.used == 0 {
        s.curr
    } else {
        next(g, t.latest)
    }
}

// Stores a byte at the next unused place of the latest buffer, and answers whether there was one.
#[inline]
pub(crate) fn store_further<M: Memory>(m: &mut M, t: &mut Stored, value: u8) -> bool
    ensures answer { result ≡ nat_lt t.old.filled t.old.length }
    ensures after { t.new ≡ (if result then further t.old else t.old) }
    ensures memory { M.Memory.bytes m.new ≡ (if result then slice_set (M.Memory.bytes m.old) (t.old.start + t.old.filled) value else M.Memory.bytes m.old) }
{
    if t.filled < t.length {
        put(m, Address(t.start as u32 + t.filled as u32), value);
        t.filled += 1;
        t.total = up(t.total);
        true
    } else {
        false
    }
}

impl<M: Memory> Chip<M> {
    // Stores a byte in the next buffer, or misses the arrival.
    pub(crate) fn store_fresh(&mut self, g: &Setup, t: Stored, value: u8)
        ensures { seen M.Memory.bytes self.new ≡ stored_fresh g.now (seen M.Memory.bytes self.old) t value }
    {
        let d = wanted(g, &self.state, &t);
        let e = descriptor(&self.memory, g, d);
        if t.used < g.count && !has(HELD, e.flags) && lawful(g, &e) {
            put(&mut self.memory, Address(e.start as u32), value);
            self.state.phase = Phase::Storing(Stored {
                used: t.used + 1,
                latest: d,
                start: e.start,
                length: e.length,
                filled: 1,
                total: up(t.total),
            });
        } else {
            miss(&mut self.state);
        }
    }

    // Stores a byte where the arrival is storing.
    fn store_in(&mut self, g: &Setup, value: u8)
        ensures { seen M.Memory.bytes self.new ≡ stored_in g.now (seen M.Memory.bytes self.old) self.old.state.phase value }
    {
        if let Phase::Storing(t) = &mut self.state.phase {
            if !store_further(&mut self.memory, t, value) {
                let full = *t;
                self.store_fresh(g, full, value);
            }
        }
    }

    // Stores the six bytes of the address in turn.
    #[tactic(auto, unfolding(rules::specs::Arrivals::store_all))]
    pub(crate) fn store_all(&mut self, g: &Setup, bytes: &[u8; 6])
        ensures { seen M.Memory.bytes self.new ≡ all_stored g.now (seen M.Memory.bytes self.old) bytes.now }
    {
        for value in bytes {
            self.store_in(g, *value);
        }
    }
}
