ghost use Rattle.std.specs.Prelude.{◌≡◌, ◌≤◌};
ghost use Rattle.memory.specs.Pages.{page_start};

/// The number of a page of 256 bytes. It never stands for an address.
#[derive(Clone, Copy, PartialEq, Eq, Debug)]
pub struct Page(pub u8);

/// The address of a byte of board memory.
#[derive(Clone, Copy, PartialEq, Eq, Debug)]
pub struct Address(pub u32);

impl Page {
    /// The address of the page's first byte: the page number times 256.
    pub fn start(self) -> Address
        ensures value { result ≡ page_start self }
        ensures bound { result.0 ≤ 65280 }
    {
        Address(self.0 as u32 * 256)
    }
}
