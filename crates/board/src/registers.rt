ghost use Rattle.std.specs.Prelude.{◌≡◌};
ghost use Rattle.rules.specs.Registers.{readable, writable, register_value, read_state, written_state, lowest_both, read_answer, read_after, write_answer, write_after, cause_answer};
ghost use Rattle.board.specs.Shown.{seen, shown_with};

use crate::chip::Chip;
use memory::memory::Memory;
use refusal::Refusal;
use rules::state::{Register, Setup, State};

// A page comes from the hold and an address from the caller, and they are matched at once: a struct of them would only be
// made and taken apart.

// The register that a page reads at an address.
fn to_read(page: u8, at: u8) -> Option<Register>
    ensures { result ≡ readable page at }
{
    match (page, at) {
        (0, 0x17) => Some(Register::IntStat),
        (0, 0x1C) => Some(Register::RStat),
        (0, 0x1D) => Some(Register::AliCnt),
        (0, 0x1E) => Some(Register::CrcCnt),
        (0, 0x1F) => Some(Register::MpCnt),
        (2, 0x11) => Some(Register::RBegin),
        (2, 0x12) => Some(Register::REnd),
        (2, 0x1C) => Some(Register::RCon),
        (2, 0x1F) => Some(Register::IntMask),
        _ => None,
    }
}

// The register that a page writes at an address.
fn to_write(page: u8, at: u8) -> Option<Register>
    ensures { result ≡ writable page at }
{
    match (page, at) {
        (0, 0x17) => Some(Register::IntStat),
        (0, 0x1F) => Some(Register::IntMask),
        _ => None,
    }
}

fn value(g: &Setup, s: &State, register: Register) -> u8
    ensures { result ≡ register_value g.now s.now register }
{
    match register {
        Register::IntStat => s.registers.intstat,
        Register::RStat => s.registers.rstat,
        Register::AliCnt => s.registers.alicnt,
        Register::CrcCnt => s.registers.crccnt,
        Register::MpCnt => s.registers.mpcnt,
        Register::RBegin => g.rbegin.0,
        Register::REnd => g.rend.0,
        Register::RCon => g.rcon,
        Register::IntMask => s.registers.intmask,
    }
}

// A counter that was read becomes 0.
fn after_read(s: &mut State, register: Register)
    ensures { s.new ≡ read_state s.old register }
{
    match register {
        Register::AliCnt => s.registers.alicnt = 0,
        Register::CrcCnt => s.registers.crccnt = 0,
        Register::MpCnt => s.registers.mpcnt = 0,
        Register::IntStat
        | Register::RStat
        | Register::RBegin
        | Register::REnd
        | Register::RCon
        | Register::IntMask => {}
    }
}

fn write(s: &mut State, register: Register, value: u8)
    ensures { s.new ≡ written_state s.old register value }
{
    match register {
        Register::IntStat => s.registers.intstat &= 255 - value,
        Register::IntMask => s.registers.intmask = value % 128,
        Register::RStat
        | Register::AliCnt
        | Register::CrcCnt
        | Register::MpCnt
        | Register::RBegin
        | Register::REnd
        | Register::RCon => {}
    }
}

// The lowest bit set in both INTSTAT and INTMASK, by its number.
#[tactic(auto, using(crate::proofs::Causes::lowest_both_none, crate::proofs::Causes::lowest_both_some))]
fn lowest(intstat: u8, intmask: u8) -> Option<u8>
    ensures { result ≡ lowest_both intstat intmask }
{
    let both = intstat & intmask;
    if both == 0 {
        None
    } else {
        Some(both.trailing_zeros() as u8)
    }
}

// The register calls, on a chip and what its open fixed.
impl<M: Memory> Chip<M> {
    // Reads the register at an address of a page.
    pub(crate) fn read_at(&mut self, setup: &Option<Setup>, page: u8, at: u8) -> Result<u8, Refusal>
        ensures answer { result ≡ read_answer (shown_with setup.now (seen M.Memory.bytes self.old)) page at }
        ensures after { shown_with setup.now (seen M.Memory.bytes self.new) ≡ read_after (shown_with setup.now (seen M.Memory.bytes self.old)) page at }
    {
        let g = setup.as_ref().ok_or(Refusal::Shut)?;
        let register = to_read(page, at).ok_or(Refusal::NoRegister)?;
        let value = value(g, &self.state, register);
        after_read(&mut self.state, register);
        Ok(value)
    }

    // Writes the register at an address of a page.
    pub(crate) fn write_at(
        &mut self,
        setup: &Option<Setup>,
        page: u8,
        at: u8,
        value: u8,
    ) -> Result<(), Refusal>
        ensures answer { result ≡ write_answer (shown_with setup.now (seen M.Memory.bytes self.old)) page at }
        ensures after { shown_with setup.now (seen M.Memory.bytes self.new) ≡ write_after (shown_with setup.now (seen M.Memory.bytes self.old)) page at value }
    {
        setup.as_ref().ok_or(Refusal::Shut)?;
        let register = to_write(page, at).ok_or(Refusal::NoRegister)?;
        write(&mut self.state, register, value);
        Ok(())
    }

    // The cause, of an open board.
    pub(crate) fn lowest_cause(&self, setup: &Option<Setup>) -> Result<Option<u8>, Refusal>
        ensures { result ≡ cause_answer (shown_with setup.now (seen M.Memory.bytes self.now)) }
    {
        setup.as_ref().ok_or(Refusal::Shut)?;
        Ok(lowest(self.state.registers.intstat, self.state.registers.intmask))
    }
}
