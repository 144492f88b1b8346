//! Messages with their CRC-32, and frames made of a message and its FCS.

use crate::conventions::{RESIDUE, converted};
use crate::report::{Base, Expected, heading};
use crate::ways::Ways;
use std::alloc::{AllocError, Global};

/// A message with its CRC-32.
pub(crate) struct Message {
    /// The CRC-32.
    pub(crate) fcs: Expected<'static>,
    /// The bytes of the message.
    pub(crate) bytes: &'static [u8],
}

impl Message {
    /// The message and an FCS, lowest byte first.
    fn frame(&self, heap: Global, fcs: u32) -> Result<Vec<u8>, AllocError> {
        let mut frame = self.bytes.to_vec(heap)?;
        frame.extend_from_slice(&fcs.to_le_bytes())?;
        Ok(frame)
    }

    /// Compares the CRC-32.
    fn compare_fcs(&self, rt: &HostRuntime) -> anyhow::Result<bool> {
        let ways = Ways::over(self.bytes).map(converted);
        Ok(self.fcs.compare(rt, Base::Hexadecimal, ways, true)?)
    }

    /// Compares the register after the message and its FCS. That frame matches, and does not
    /// with one bit changed.
    fn compare_residue(&self, rt: &HostRuntime) -> anyhow::Result<bool> {
        let frame = self.frame(rt.alloc(), self.fcs.value)?;
        let spoilt = self.frame(rt.alloc(), self.fcs.value ^ 1)?;
        let ways = Ways::over(frame.as_slice());
        let matched = crc::matches(ways.byte) && crc::slice_matches(frame.as_slice());
        let refused = !crc::slice_matches(spoilt.as_slice());
        let residue = Expected {
            name: self.fcs.name,
            value: RESIDUE,
            source: "CRC catalogue, CRC-32/ISO-HDLC, residue",
        };
        Ok(residue.compare(rt, Base::Hexadecimal, ways, matched && refused)?)
    }
}

/// Compares the CRC-32 of each message, and the register after its FCS.
pub(crate) fn compare(rt: &HostRuntime, title: &str, messages: &[Message]) -> anyhow::Result<bool> {
    let mut agreed = true;
    heading(rt, title)?;
    for message in messages {
        agreed &= message.compare_fcs(rt)?;
    }
    heading(rt, "  and after its FCS")?;
    for message in messages {
        agreed &= message.compare_residue(rt)?;
    }
    Ok(agreed)
}
