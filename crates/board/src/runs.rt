ghost use Rattle.std.specs.Prelude.{◌≡◌};
ghost use Rattle.rules.specs.Table.{in_place as stands_in_place, run as run_from, onward, take_one as taken_one, take_run, clear_run};

use crate::bits::{FIRST, HELD, LAST, TAKEN, has, set};
use crate::descriptor::{byte, descriptor, lawful, next, place, put, write};
use crate::round::Round;
use memory::memory::Memory;
use rules::state::{Break, Descriptor, Run, Setup};

// Whether a descriptor is HELD, TAKEN as the run asks, and FIRST at its start alone.
fn in_place(taking: bool, start: bool, e: &Descriptor) -> bool
    ensures { result ≡ stands_in_place taking start e.now }
{
    has(HELD, e.flags) && has(TAKEN, e.flags) == taking && has(FIRST, e.flags) == start
}

// The frame whose run of descriptors begins at one, or what breaks it.
#[tactic(auto, using(crate::proofs::Rounds::judge_is, crate::proofs::Rounds::length_numbers))]
pub(crate) fn run<M: Memory>(m: &M, g: &Setup, from: u8, taking: bool) -> Result<Run, Break>
    ensures { result ≡ run_from g.now (M.Memory.bytes m.now) taking from }
{
    let mut latest = from;
    let mut frame = Run {
        count: 0,
        length: 0,
        status: 0,
    };
    for d in Round::new(g, from, g.count) {
        let e = descriptor(m, g, d);
        if !lawful(g, &e) {
            return Err(Break::Unlawful(d));
        }
        if !in_place(taking, frame.count == 0, &e) {
            return Err(Break::Misplaced(d));
        }
        frame.count += 1;
        frame.length += e.fill as u32;
        frame.status = e.status;
        if has(LAST, e.flags) {
            return Ok(frame);
        }
        latest = d;
    }
    Err(Break::Endless(latest))
}

// Frees the descriptors of a run.
#[tactic(auto, using(crate::proofs::Rounds::clear_is))]
pub(crate) fn clear<M: Memory>(m: &mut M, run: Round)
    ensures { M.Memory.bytes m.new ≡ clear_run run.setup (M.Memory.bytes m.old) run.at run.left }
{
    for d in run {
        write(m, &run.setup, d, 0, 0, 0);
    }
}

fn take_one<M: Memory>(m: &mut M, g: &Setup, d: u8)
    ensures { M.Memory.bytes m.new ≡ taken_one g.now (M.Memory.bytes m.old) d }
{
    let p = place(g, d);
    let mut flags = byte(m, p);
    set(&mut flags, TAKEN);
    put(m, p, flags);
}

// Sets TAKEN in the descriptors of a run, and answers the descriptor after it, of which the loop is not told.
#[tactic(auto, using(crate::proofs::Rounds::take_is, crate::proofs::Rounds::onward_is))]
pub(crate) fn mark_taken<M: Memory>(m: &mut M, run: Round) -> u8
    ensures after { M.Memory.bytes m.new ≡ take_run run.setup (M.Memory.bytes m.old) run.at run.left }
    ensures value { result ≡ onward run.setup run.at run.left }
{
    let mut after = run.at;
    for d in run {
        take_one(m, &run.setup, d);
        after = next(&run.setup, d);
    }
    after
}
