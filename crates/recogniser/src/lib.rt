//! Recognisers: each means a set of six-byte addresses.
#![tactic(auto)]

ghost use Rattle.std.specs.Prelude.{◌≡◌, ℕ, Bool, List};

pub mod sheet;
pub mod station;

/// A set of six-byte addresses.
pub trait Recogniser {
    ghost members: { Self → List ℕ → Bool };

    /// Whether the address is a member.
    fn accepts(&self, address: &[u8; 6]) -> bool
        ensures answer { result ≡ members self.now address.now };
}
