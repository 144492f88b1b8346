ghost use Rattle.std.specs.Prelude.{◌≡◌, ◌+◌, ◌-◌, ◌*◌, ◌≤◌, true, [], take};
ghost use Rattle.layout.specs.Buffers.{sound};

use crate::buffer::Buffer;
use memory::address::Page;

mod calls;
mod parts;

/// A memory size, a receive table and its buffers. No two buffers share a byte, none touches the
/// table, and each has one byte or more, all of them below the size.
// With no `impl Model`: what a layout shows is `shape`, and the law over runs in `rules` reads these ghost fields.
#[derive(Drop)]
pub struct Layout {
    size: u32,
    rbegin: Page,
    rend: Page,
    count: usize,
    // An array with `count`: the project's form where the subject has the bound, here 64 buffers.
    buffers: [Buffer; 64],
    ghost few: { (count ≤ 32 * (rend.0 - rbegin.0)) × (rbegin.0 ≤ rend.0) × (rend.0 ≤ rbegin.0 + 2) },
    ghost apart: { sound size rbegin rend [] (take count buffers) ≡ true },
    ghost within: { (rend.0 * 256 ≤ size) × (size ≤ 65536) },
}
