ghost use Rattle.std.specs.Prelude.{◌≡◌, ◌≤◌, length};
ghost use Rattle.layout.specs.Layouts.{shape};

use crate::buffer::Buffer;
use crate::layout::Layout;
use memory::address::Page;

impl Layout {
    /// The memory size that the layout is for.
    pub fn size(&self) -> u32
        ensures value { result ≡ (shape self.now).size }
    {
        self.size
    }

    /// The first page of the receive table.
    pub fn rbegin(&self) -> Page
        ensures value { result ≡ (shape self.now).rbegin }
    {
        self.rbegin
    }

    /// The page after the receive table's last.
    pub fn rend(&self) -> Page
        ensures value { result ≡ (shape self.now).rend }
    {
        self.rend
    }

    /// The buffers, in the order in which they were added: at most 64.
    pub fn buffers(&self) -> &[Buffer]
        ensures value { result.now ≡ (shape self.now).buffers }
        ensures bound { length result.now ≤ 64 }
    {
        &self.buffers[0..self.count]
    }
}
