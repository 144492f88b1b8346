ghost use Rattle.std.specs.Prelude.{◌≡◌, ℕ, ◌+◌, ◌*◌, ◌<◌, ◌≤◌, List, length, take, drop, Ok, Err, nat_le, nat_lt, if◌then◌else◌, slice_index, slice_set};
ghost use Rattle.refusal.specs.declared.Refusal.TheVariants.{Outside};
ghost use Rattle.memory.specs.Halves.{halves};
ghost use Rattle.memory.specs.Memory.{read_answer, write_answer, slice_answer, slice_copied};

use crate::address::Address;
use refusal::Refusal;

/// A board memory: a size, and that many bytes at the addresses from 0.
/// The size never changes. A size of 0 is lawful: every address is then outside.
pub trait Memory {
    /// The memory's bytes, in the order of their addresses.
    ghost bytes: { Self → List ℕ };

    /// The number of bytes, which is also the lowest address outside.
    fn size(&self) -> usize
        ensures value { result ≡ length (bytes self.now) };

    /// The byte at an address below the size. Nothing changes.
    /// Any other address is refused with `Refusal::Outside` and that address.
    fn read(&self, at: Address) -> Result<u8, Refusal>
        ensures answer { result ≡ read_answer (bytes self.now) at };

    /// Replaces the byte at an address below the size, and no other.
    /// Any other address is refused with `Refusal::Outside` and that address, and no byte changes.
    fn write(&mut self, at: Address, value: u8) -> Result<(), Refusal>
        ensures after { bytes self.new ≡ slice_set (bytes self.old) at.0 value }
        ensures answer { result ≡ write_answer (bytes self.old) at };

    /// Copies the bytes from an address on to the caller's slice, as many as it holds.
    /// Where these do not all lie below the size, the call is refused with `Refusal::Outside` and that address, and the slice is as it was.
    fn read_slice(&self, from: Address, out: &mut [u8]) -> Result<(), Refusal>
        ensures answer { result ≡ slice_answer (bytes self.now) from (length out.old) }
        ensures copied { out.new ≡ slice_copied (bytes self.now) from out.old };
}

// `Bytes` and `Words` stay two types: the rules have two memories.
// The clauses `lent` stay: they tie a loan after a call to the one before, and a type speaks of one moment.

/// A memory over a caller's bytes.
#[derive(Drop)]
pub struct Bytes<'a> {
    cells: &'a mut [u8],
}

impl<'a> Bytes<'a> {
    /// The memory whose bytes are the caller's, from the first on.
    pub fn new(cells: &'a mut [u8]) -> Bytes<'a>
        ensures value { result.cells.now ≡ cells.old }
        ensures lent { result.cells.ghost_name ≡ cells.entry.ghost_name }
    {
        Bytes { cells }
    }
}

impl<'a> Memory for Bytes<'a> {
    ghost bytes = { λ s. s.cells.now };

    fn size(&self) -> usize {
        self.cells.len()
    }

    fn read(&self, at: Address) -> Result<u8, Refusal> {
        let place = place_below(at, self.size())?;
        Ok(self.cells[place])
    }

    fn write(&mut self, at: Address, value: u8) -> Result<(), Refusal>
        ensures after { self.new.cells.now ≡ slice_set self.old.cells.now at.0 value }
        ensures answer { result ≡ write_answer self.old.cells.now at }
        ensures lent { self.new.cells.ghost_name ≡ self.old.cells.ghost_name }
    {
        let place = place_below(at, self.size())?;
        self.cells[place] = value;
        Ok(())
    }

    fn read_slice(&self, from: Address, out: &mut [u8]) -> Result<(), Refusal> {
        let start = start_below(from, out.len(), self.size())?;
        out.copy_from_slice(&self.cells[start..start + out.len()]);
        Ok(())
    }
}

/// A memory over a caller's 16-bit words, the even address in the low half.
#[derive(Drop)]
pub struct Words<'a> {
    cells: &'a mut [u16],
}

impl<'a> Words<'a> {
    /// The memory whose bytes are the halves of the caller's words, from the first on.
    pub fn new(cells: &'a mut [u16]) -> Words<'a>
        ensures value { result.cells.now ≡ cells.old }
        ensures lent { result.cells.ghost_name ≡ cells.entry.ghost_name }
    {
        Words { cells }
    }
}

impl<'a> Memory for Words<'a> {
    ghost bytes = { λ s. halves s.cells.now };

    fn size(&self) -> usize {
        byte_count(self.cells)
    }

    fn read(&self, at: Address) -> Result<u8, Refusal> {
        let place = place_below(at, self.size())?;
        Ok(byte(self.cells, place))
    }

    fn write(&mut self, at: Address, value: u8) -> Result<(), Refusal>
        ensures after { halves self.new.cells.now ≡ slice_set (halves self.old.cells.now) at.0 value }
        ensures answer { result ≡ write_answer (halves self.old.cells.now) at }
        ensures lent { self.new.cells.ghost_name ≡ self.old.cells.ghost_name }
    {
        let place = place_below(at, self.size())?;
        set_byte(self.cells, place, value);
        Ok(())
    }

    #[tactic(auto, using(crate::proofs::HalfAt::length_halves))]
    fn read_slice(&self, from: Address, out: &mut [u8]) -> Result<(), Refusal> {
        let start = start_below(from, out.len(), self.size())?;
        copy_halves(self.cells, start, out);
        Ok(())
    }
}

/// The place of an address below a size. Any other address is refused.
fn place_below(at: Address, size: usize) -> Result<usize, Refusal>
    ensures value { result ≡ (if nat_lt at.0 size then Ok at.0 else Err (Outside at.0)) }
{
    start_below(at, 1, size)
}

/// The place of an address from which so many bytes all lie below a size. Any other address is refused.
fn start_below(from: Address, count: usize, size: usize) -> Result<usize, Refusal>
    ensures value { result ≡ (if nat_le (from.0 + count) size then Ok from.0 else Err (Outside from.0)) }
{
    let start = from.0 as usize;
    if start <= size && count <= size - start {
        Ok(start)
    } else {
        Err(Refusal::Outside(from.0))
    }
}

/// The number of bytes in words.
#[tactic(auto, using(crate::proofs::HalfAt::length_halves))]
fn byte_count(words: &[u16]) -> usize
    ensures value { result ≡ length (halves words.now) }
{
    2 * words.len()
}

/// The byte at a place within words.
#[tactic(auto, using(crate::proofs::HalfAt::length_halves, crate::proofs::HalfAt::get_or_even, crate::proofs::HalfAt::get_or_odd))]
fn byte(words: &[u16], place: usize) -> u8
    requires { place < length (halves words.now) }
    ensures value { result ≡ slice_index (halves words.now) place }
{
    let [low, high] = words[place / 2].to_le_bytes();
    if place % 2 == 0 { low } else { high }
}

/// Replaces the byte at a place within words.
#[tactic(auto, using(crate::proofs::HalfAt::length_halves, crate::proofs::HalfAt::set_low, crate::proofs::HalfAt::set_high))]
fn set_byte(words: &mut [u16], place: usize, value: u8)
    requires { place < length (halves words.old) }
    ensures after { halves words.new ≡ slice_set (halves words.old) place value }
{
    let [low, high] = words[place / 2].to_le_bytes();
    // Not `bytes[place % 2] = value`, nor one `from_le_bytes` of the array chosen: both were timed as slower.
    words[place / 2] = if place % 2 == 0 {
        u16::from_le_bytes([value, high])
    } else {
        u16::from_le_bytes([low, value])
    };
}

/// Copies the bytes of words from a place on, as many as the slice holds.
#[tactic(auto, using(std::proofs::lemmas::List::take_rest, crate::proofs::HalfAt::halves_drop, crate::proofs::HalfAt::drop_odd))]
fn copy_halves(words: &[u16], start: usize, out: &mut [u8])
    requires { start + length out.old ≤ 2 * length words.now }
    ensures copied { out.new ≡ take (length out.old) (drop start (halves words.now)) }
{
    let place = start / 2;
    if start % 2 == 0 {
        copy_words(&words[place..], out);
    } else if let Some((first, rest)) = out.split_first_mut() {
        let [_, high] = words[place].to_le_bytes();
        *first = high;
        copy_words(&words[place + 1..], rest);
    }
}

/// Copies the bytes of words from the first on, as many as the slice holds.
fn copy_words(words: &[u16], out: &mut [u8])
    requires { length out.old ≤ 2 * length words.now }
    ensures copied { out.new ≡ take (length out.old) (halves words.now) }
{
    let pairs = out.len() / 2;
    // The bytes by index: of what `chunks_exact_mut` or `as_chunks_mut` lent out, a proof knows no byte afterwards.
    for (i, word) in words[..pairs].iter().enumerate() {
        let [low, high] = word.to_le_bytes();
        out[2 * i] = low;
        out[2 * i + 1] = high;
    }
    if out.len() % 2 == 1 {
        let [low, _] = words[pairs].to_le_bytes();
        out[2 * pairs] = low;
    }
}
