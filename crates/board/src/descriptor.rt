ghost use Rattle.std.specs.Prelude.{◌≡◌, ◌+◌, ◌<◌, true, slice_index, slice_set};
ghost use Rattle.rules.specs.Table.{word_at, place as place_of, next as next_after, descriptor as descriptor_of, lawful as is_lawful, write as written, keep_one as kept_one, keep_run as kept_run};

use crate::bits::{HELD, has};
use crate::round::Round;
use memory::address::Address;
use memory::memory::Memory;
use rules::state::{Descriptor, Setup};

// These functions take the memory and the setup apart: that the setup stays is said by its shared borrow, and would be a
// clause of each method of a struct of both.

// The byte at an address, or 0 past the memory's end.
pub(crate) fn byte<M: Memory>(m: &M, at: Address) -> u8
    ensures { result ≡ slice_index (M.Memory.bytes m.now) at.0 }
{
    m.read(at).unwrap_or(0)
}

// A number of two bytes, by the addresses of its low and its high byte.
fn word<M: Memory>(m: &M, low: Address, high: Address) -> u16
    ensures { result ≡ word_at (M.Memory.bytes m.now) low.0 high.0 }
{
    u16::from_le_bytes([byte(m, low), byte(m, high)])
}

// Replaces the byte at an address; past the memory's end nothing changes.
pub(crate) fn put<M: Memory>(m: &mut M, at: Address, value: u8)
    ensures { M.Memory.bytes m.new ≡ slice_set (M.Memory.bytes m.old) at.0 value }
{
    let _ = m.write(at, value);
}

// The address of a descriptor.
pub(crate) fn place(g: &Setup, d: u8) -> Address
    ensures value { result.0 ≡ place_of g.now d }
    ensures bound { result.0 < 100000 }
{
    Address(g.rbegin.start().0 + 8 * d as u32)
}

#[tactic(auto, unfolding(rules::specs::Table::next))]
pub(crate) fn next(g: &Setup, d: u8) -> u8
    ensures { result ≡ next_after g.now d }
{
    let up = d as u16 + 1;
    if up < g.count as u16 { up as u8 } else { 0 }
}

#[tactic(auto, unfolding(rules::specs::Table::descriptor_at))]
pub(crate) fn descriptor<M: Memory>(m: &M, g: &Setup, d: u8) -> Descriptor
    ensures { result ≡ descriptor_of g.now (M.Memory.bytes m.now) d }
{
    let Address(p) = place(g, d);
    Descriptor {
        flags: byte(m, Address(p)),
        status: byte(m, Address(p + 1)),
        start: word(m, Address(p + 2), Address(p + 3)),
        length: word(m, Address(p + 4), Address(p + 5)),
        fill: word(m, Address(p + 6), Address(p + 7)),
    }
}

#[tactic(auto, unfolding(rules::specs::Table::lawful))]
pub(crate) fn lawful(g: &Setup, e: &Descriptor) -> bool
    ensures { result ≡ is_lawful g.now e.now }
{
    let start = e.start as u32;
    let end = start + e.length as u32;
    e.flags < 16
        && (has(HELD, e.flags) || e.flags == 0)
        && 0 < e.length
        && end <= g.size
        && !(start < g.rend.start().0 && g.rbegin.start().0 < end)
        && e.fill <= e.length
}

// Replaces bytes 0, 1, 6 and 7 of a descriptor.
#[tactic(auto, unfolding(rules::specs::Table::write_at))]
pub(crate) fn write<M: Memory>(m: &mut M, g: &Setup, d: u8, flags: u8, status: u8, fill: u16)
    ensures { M.Memory.bytes m.new ≡ written g.now (M.Memory.bytes m.old) d flags status fill }
{
    let Address(p) = place(g, d);
    let [low, high] = fill.to_le_bytes();
    put(m, Address(p), flags);
    put(m, Address(p + 1), status);
    put(m, Address(p + 6), low);
    put(m, Address(p + 7), high);
}

fn keep_one<M: Memory>(m: &mut M, g: &Setup, d: u8, filled: u16, status: u8, start: bool, end: bool)
    ensures { M.Memory.bytes m.new ≡ kept_one g.now (M.Memory.bytes m.old) d filled status start end }
{
    let mut flags = 1;
    if start {
        flags += 2;
    }
    if end {
        flags += 4;
    }
    let status = if end { status } else { 0 };
    let fill = if end {
        filled
    } else {
        descriptor(m, g, d).length
    };
    write(m, g, d, flags, status, fill);
}

// Marks the descriptors of a kept arrival.
#[tactic(auto, using(crate::proofs::Rounds::keep_is))]
pub(crate) fn keep_run<M: Memory>(m: &mut M, run: Round, filled: u16, status: u8)
    ensures { M.Memory.bytes m.new ≡ kept_run run.setup (M.Memory.bytes m.old) run.at filled status true run.left }
{
    for (i, d) in run.enumerate() {
        keep_one(
            m,
            &run.setup,
            d,
            filled,
            status,
            i == 0,
            i + 1 == run.left as usize,
        );
    }
}
