//! The printed lines.

use crate::ways::Ways;
use std::{fmt, io};

/// The number that is expected of a vector.
#[derive(Clone, Copy)]
pub(crate) struct Expected<'a> {
    /// What it is the number of.
    pub(crate) name: &'a str,
    /// The number.
    pub(crate) value: u32,
    /// Who gives it.
    pub(crate) source: &'a str,
}

/// Prints the title of a section and what its columns hold.
pub(crate) fn heading(rt: &HostRuntime, title: &str) -> io::Result<()> {
    println!(rt; "{title:<26} expected slice    byte     second")
}

/// The base of the printed numbers. The callers name it, so it is a value.
#[derive(Clone, Copy)]
pub(crate) enum Base {
    Decimal,
    Hexadecimal,
}

/// A number, printed in eight columns.
#[derive(Clone, Copy)]
struct Number(Base, u32);

impl fmt::Display for Number {
    fn fmt<W: fmt::Write>(&self, f: &mut fmt::Formatter<W>) -> fmt::Result {
        let Number(base, value) = self;
        match base {
            Base::Decimal => write!(f, "{value:<8}"),
            Base::Hexadecimal => write!(f, "{value:08X}"),
        }
    }
}

impl Expected<'_> {
    /// Prints the number and what each way gives, and whether they agree and the vector passed
    /// its other tests. Answers that.
    pub(crate) fn compare(
        &self,
        rt: &HostRuntime,
        base: Base,
        ways: Ways,
        passed: bool,
    ) -> io::Result<bool> {
        let Expected {
            name,
            value,
            source,
        } = *self;
        let agreed = ways.all(value) && passed;
        let verdict = if agreed { "agree" } else { "DIFFER" };
        let [expected, slice, byte, second] = [value, ways.slice, ways.byte, ways.second].map(
            |number| Number(base, number),
        );
        println!(rt; "{name:<26} {expected} {slice} {byte} {second} {verdict:<6} {source}")?;
        Ok(agreed)
    }
}
