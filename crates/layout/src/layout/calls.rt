ghost use Rattle.std.specs.Prelude.{◌≡◌};
ghost use Rattle.layout.specs.Buffers.{meets as meet, shares as shares_a_byte};
ghost use Rattle.layout.specs.Layouts.{shape, blank as blank_shape, good_size, table_answer, tabled, add_answer, added};

use crate::buffer::Buffer;
use crate::layout::Layout;
use memory::address::{Address, Page};
use refusal::Refusal;

fn meets(a: &Buffer, b: &Buffer) -> bool
    ensures { result ≡ meet a.now b.now }
{
    (a.start.0 as u64) < b.start.0 as u64 + b.length as u64
        && (b.start.0 as u64) < a.start.0 as u64 + a.length as u64
}

fn shares(buffers: &[Buffer], x: &Buffer) -> bool
    ensures { result ≡ shares_a_byte buffers.now x.now }
{
    buffers.iter().any(|b| meets(b, x))
}

fn whole_pages(size: u32) -> bool
    ensures { result ≡ good_size size }
{
    size % 256 == 0 && 512 <= size && size <= 65536
}

impl Layout {
    /// No size, no table and no buffer.
    pub fn blank() -> Layout
        ensures value { shape result ≡ blank_shape }
    {
        let none = Buffer {
            start: Address(0),
            length: 0,
        };
        Layout {
            size: 0,
            rbegin: Page(0),
            rend: Page(0),
            count: 0,
            buffers: [none; 64],
        }
    }

    /// Gives the layout a memory size and a receive table, and takes its buffers away.
    pub fn table(&mut self, size: u32, rbegin: Page, rend: Page) -> Result<(), Refusal>
        ensures answer { result ≡ table_answer size rbegin rend }
        ensures after { shape self.new ≡ tabled result (shape self.old) size rbegin rend }
    {
        if !whole_pages(size) {
            return Err(Refusal::BadSize);
        }
        if rbegin.0 >= rend.0 || rend.0 - rbegin.0 > 2 || rend.start().0 > size {
            return Err(Refusal::BadTable);
        }
        self.count = 0;
        self.size = size;
        self.rbegin = rbegin;
        self.rend = rend;
        Ok(())
    }

    fn judge(&self, x: &Buffer) -> Result<(), Refusal>
        ensures { result ≡ add_answer (shape self.now) x.now }
    {
        if self.count >= 32 * (self.rend.0 as usize - self.rbegin.0 as usize) {
            return Err(Refusal::LayoutFull);
        }
        if x.length == 0 || x.start.0 as u64 + x.length as u64 > self.size as u64 {
            return Err(Refusal::BadBuffer);
        }
        let table = Buffer {
            start: self.rbegin.start(),
            length: (self.rend.0 as u16 - self.rbegin.0 as u16) * 256,
        };
        if meets(&table, x) || shares(&self.buffers[0..self.count], x) {
            return Err(Refusal::Shared);
        }
        Ok(())
    }

    /// Appends a buffer.
    pub fn add(&mut self, start: Address, length: u16) -> Result<(), Refusal>
        ensures answer { result ≡ add_answer (shape self.old) (record { start = start; length = length }) }
        ensures after { shape self.new ≡ added result (shape self.old) (record { start = start; length = length }) }
    {
        let x = Buffer { start, length };
        self.judge(&x)?;
        self.buffers[self.count] = x;
        self.count += 1;
        Ok(())
    }
}
