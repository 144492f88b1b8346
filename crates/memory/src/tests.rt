ghost use Rattle.std.specs.Prelude.{◌≡◌, [], ◌∷◌, slice_set};
ghost use Rattle.memory.specs.Halves.{halves};
ghost use Rattle.memory.specs.Memory.{write_answer};

use crate::address::Address;
use crate::memory::{Bytes, Memory, Words};
use refusal::Refusal;

// Once the memory is gone, the caller's bytes hold what was written through it.
fn write_bytes(cells: &mut [u8], at: Address, value: u8) -> Result<(), Refusal>
    ensures after { cells.new ≡ slice_set cells.old at.0 value }
    ensures answer { result ≡ write_answer cells.old at }
{
    let mut memory = Bytes::new(cells);
    memory.write(at, value)
}

// The same of the halves of the caller's words. Two functions, since no clause of `Memory` says what the caller's cells hold.
fn write_words(cells: &mut [u16], at: Address, value: u8) -> Result<(), Refusal>
    ensures after { halves cells.new ≡ slice_set (halves cells.old) at.0 value }
    ensures answer { result ≡ write_answer (halves cells.old) at }
{
    let mut memory = Words::new(cells);
    memory.write(at, value)
}

// The same over an array of the function's own.
fn write_array() -> [u8; 4]
    ensures value { result ≡ 1 ∷ 2 ∷ 9 ∷ 4 ∷ [] }
{
    let mut cells = [1, 2, 3, 4];
    {
        let mut memory = Bytes::new(&mut cells);
        let _ = memory.write(Address(2), 9);
    }
    cells
}

#[test]
fn bytes_hold_what_was_written(rt: HostRuntime) {
    let mut cells = [1, 2, 3, 4];
    assert_eq!(rt; write_bytes(&mut cells, Address(1), 9), Ok(()));
    assert_eq!(rt;
        write_bytes(&mut cells, Address(4), 8),
        Err(Refusal::Outside(4))
    );
    assert!(rt; cells == [1, 9, 3, 4] && write_array() == [1, 2, 9, 4]);
}

#[test]
fn words_hold_what_was_written(rt: HostRuntime) {
    let mut cells = [0x0201, 0x0403];
    assert_eq!(rt; write_words(&mut cells, Address(1), 9), Ok(()));
    assert_eq!(rt;
        write_words(&mut cells, Address(4), 8),
        Err(Refusal::Outside(4))
    );
    assert!(rt; cells == [0x0901, 0x0403]);
}

// What is read of a memory of the bytes 1 to 6, from even and odd addresses and in odd and even numbers.
// Past the end nothing is read, and the slice is as it was.
fn read_six<M: Memory>(memory: &M) -> bool {
    let mut three = [0; 3];
    let mut four = [0; 4];
    memory.read_slice(Address(0), &mut three).is_ok()
        && three == [1, 2, 3]
        && memory.read_slice(Address(3), &mut three).is_ok()
        && three == [4, 5, 6]
        && memory.read_slice(Address(2), &mut four).is_ok()
        && four == [3, 4, 5, 6]
        && memory.read_slice(Address(1), &mut four).is_ok()
        && four == [2, 3, 4, 5]
        && memory.read_slice(Address(3), &mut four) == Err(Refusal::Outside(3))
        && four == [2, 3, 4, 5]
        && memory.read_slice(Address(6), &mut []).is_ok()
}

#[test]
fn slices_hold_what_was_read(rt: HostRuntime) {
    assert!(rt; read_six(&Bytes::new(&mut [1, 2, 3, 4, 5, 6])));
    assert!(rt; read_six(&Words::new(&mut [0x0201, 0x0403, 0x0605])));
}
