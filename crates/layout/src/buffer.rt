use memory::address::Address;

/// A receive buffer: the address of its first byte, and how many bytes it has.
#[derive(Clone, Copy, PartialEq, Debug)]
pub struct Buffer {
    pub start: Address,
    pub length: u16,
}
