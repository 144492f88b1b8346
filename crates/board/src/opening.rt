ghost use Rattle.std.specs.Prelude.{◌≡◌, ◌<◌, ◌≤◌, length};
ghost use Rattle.rules.specs.Opening.{describe_one as described_one, described};

use crate::descriptor::put;
use layout::buffer::Buffer;
use memory::address::{Address, Page};
use memory::memory::Memory;

// Writes a free descriptor for a buffer: status and fill 0.
#[tactic(auto, unfolding(rules::specs::Opening::describe_at))]
fn describe_one<M: Memory>(m: &mut M, rbegin: Page, d: usize, buffer: &Buffer)
    requires { d < 64 }
    ensures { M.Memory.bytes m.new ≡ described_one rbegin.0 (M.Memory.bytes m.old) d buffer.now }
{
    let p = rbegin.start().0 + 8 * d as u32;
    let [start_low, start_high, _, _] = buffer.start.0.to_le_bytes();
    let [length_low, length_high] = buffer.length.to_le_bytes();
    put(m, Address(p), 0);
    put(m, Address(p + 1), 0);
    put(m, Address(p + 2), start_low);
    put(m, Address(p + 3), start_high);
    put(m, Address(p + 4), length_low);
    put(m, Address(p + 5), length_high);
    put(m, Address(p + 6), 0);
    put(m, Address(p + 7), 0);
}

// Writes one descriptor for each buffer, by the buffers with their index: a rule of the project.
#[tactic(auto, unfolding(rules::specs::Opening::described))]
pub(crate) fn describe<M: Memory>(m: &mut M, rbegin: Page, buffers: &[Buffer])
    requires { length buffers.now ≤ 64 }
    ensures { M.Memory.bytes m.new ≡ described rbegin.0 (M.Memory.bytes m.old) 0 buffers.now }
{
    for (d, buffer) in buffers.iter().enumerate() {
        describe_one(m, rbegin, d, buffer);
    }
}
