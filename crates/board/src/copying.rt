ghost use Rattle.std.specs.Prelude.{◌≡◌, ◌+◌, ◌&&◌, if◌then◌else◌, length, nat_le, slice_set};
ghost use Rattle.rules.specs.Table.{span, frame_bytes};
ghost use Rattle.rules.specs.Host.{overlay};

use crate::descriptor::{byte, descriptor};
use crate::round::Round;
use memory::address::Address;
use memory::memory::Memory;
use rules::state::Descriptor;

// A memory, a descriptor, the caller's buffer and a place in it: nothing else has them together, so no struct is made of
// them for the three functions that copy.

// Replaces the byte at a place of a buffer; past its end nothing changes.
fn set_at(out: &mut [u8], at: usize, value: u8)
    ensures { out.new ≡ slice_set out.old at value }
{
    if at < out.len() {
        out[at] = value;
    }
}

// Copies the bytes of a descriptor's buffer to a place of the caller's one by one, as far as that goes.
#[tactic(auto, unfolding(rules::specs::Table::span, rules::specs::Host::overlay))]
fn copy_each<M: Memory>(m: &M, e: &Descriptor, out: &mut [u8], at: u32)
    ensures { out.new ≡ overlay out.old at (span (M.Memory.bytes m.now) e.now.start e.now.fill) }
{
    for (to, from) in (at as usize..).zip(e.start as u32..).take(e.fill as usize) {
        set_at(out, to, byte(m, Address(from)));
    }
}

// The same as a whole, where memory and buffer have all the places. Answers whether it is so; else nothing changes.
fn copy_whole<M: Memory>(m: &M, e: &Descriptor, out: &mut [u8], at: u32) -> bool
    ensures answer { result ≡ (nat_le (at + e.now.fill) (length out.old) && nat_le (e.now.start + e.now.fill) (length (M.Memory.bytes m.now))) }
    ensures copied { out.new ≡ (if result then overlay out.old at (span (M.Memory.bytes m.now) e.now.start e.now.fill) else out.old) }
{
    let at = at as usize;
    let end = at + e.fill as usize;
    end <= out.len()
        && m.read_slice(Address(e.start as u32), &mut out[at..end])
            .is_ok()
}

// Copies the first fill bytes of a descriptor's buffer to a place of the caller's.
fn copy<M: Memory>(m: &M, e: &Descriptor, out: &mut [u8], at: u32)
    ensures { out.new ≡ overlay out.old at (span (M.Memory.bytes m.now) e.now.start e.now.fill) }
{
    if !copy_whole(m, e, out, at) {
        copy_each(m, e, out, at);
    }
}

// Copies a frame to the front of the caller's buffer.
#[tactic(auto, using(crate::proofs::Rounds::bytes_is, crate::proofs::Rounds::length_numbers, rules::proofs::Overlays::overlay_append, rules::proofs::Overlays::overlay_none, rules::proofs::Overlays::length_span))]
pub(crate) fn copy_run<M: Memory>(m: &M, run: Round, out: &mut [u8])
    ensures { out.new ≡ overlay out.old 0 (frame_bytes run.setup (M.Memory.bytes m.now) run.at run.left) }
{
    let mut at = 0;
    for d in run {
        let e = descriptor(m, &run.setup, d);
        copy(m, &e, out, at);
        at += e.fill as u32;
    }
}
