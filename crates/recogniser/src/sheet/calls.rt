ghost use Rattle.std.specs.Prelude.{◌≡◌, ℕ, ◌<◌, ◌&&◌, ◌||◌, List, length};
ghost use Rattle.std.specs.Str.{bytes_eq};
ghost use Rattle.recogniser.specs.Sheet.{sheet_members, admit_answer, accepted, Admitted, Admits};

use super::Sheet;
use crate::Recogniser;
use refusal::Refusal;

impl<'a> Recogniser for Sheet<'a> {
    ghost members = { sheet_members };

    fn accepts(&self, address: &[u8; 6]) -> bool {
        self.holds(address)
    }
}

// `lent` stands in the contract of each call: a caller knows of the borrow only what that contract says.
impl<'a> Sheet<'a> {
    /// A sheet with no entry in use.
    pub fn new(entries: &'a mut [[u8; 6]]) -> Sheet<'a>
        ensures value { (result.count ≡ 0) × (result.entries.now ≡ entries.old) }
        ensures lent { result.entries.ghost_name ≡ entries.entry.ghost_name }
    {
        Sheet { entries, count: 0 }
    }

    /// Adds an address to those in use. Its place among them is open.
    #[tactic(auto, using(crate::proofs::Times::among_from_times))]
    pub fn admit(&mut self, address: [u8; 6]) -> Result<(), Refusal>
        ensures answer { result ≡ admit_answer self.old address }
        ensures after { Admits result self.old address self.new }
        ensures members { (a : List ℕ) → sheet_members self.new a ≡ (sheet_members self.old a || (accepted result && bytes_eq a address)) }
        ensures lent { self.new.entries.ghost_name ≡ self.old.entries.ghost_name }
    {
        if self.count >= self.entries.len() {
            return Err(Refusal::SheetFull);
        }
        if self.holds(&address) {
            return Err(Refusal::AlreadyMember);
        }
        self.insert(address);
        Ok(())
    }

    /// Whether the address is among those in use.
    // A loop over the entries with their index: a rule of the project.
    fn holds(&self, address: &[u8; 6]) -> bool
        ensures value { result ≡ sheet_members self.now address.now }
    {
        for (i, entry) in self.entries.iter().enumerate() {
            if i >= self.count {
                return false;
            }
            if address == entry {
                return true;
            }
        }
        false
    }

    /// Adds an address, at the end of those in use.
    fn insert(&mut self, address: [u8; 6])
        requires room { self.old.count < length self.old.entries.now }
        ensures after { Admitted self.old address self.new }
        ensures lent { self.new.entries.ghost_name ≡ self.old.entries.ghost_name }
    {
        self.entries[self.count] = address;
        self.count += 1;
    }
}
