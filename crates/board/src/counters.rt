ghost use Rattle.std.specs.Prelude.{◌≡◌, ◌<◌};
ghost use Rattle.rules.specs.Arrivals.{count_up, noted, counted};
ghost use Rattle.rules.specs.Views.{with_rstat};
ghost use Rattle.rules.specs.Bits.{with_bit};

use crate::bits::{CNT, set};
use rules::state::Registers;

const HIGH_COUNT: u8 = 128;

// A count: the counter stays at 255.
pub(crate) fn up(counter: u8) -> u8
    ensures { result ≡ count_up counter }
{
    counter.saturating_add(1)
}

// Counts, and notes in INTSTAT that the counter is high.
pub(crate) fn count(counter: &mut u8, intstat: &mut u8)
    ensures counter { counter.new ≡ count_up counter.old }
    ensures intstat { intstat.new ≡ noted counter.new intstat.old }
{
    *counter = up(*counter);
    if HIGH_COUNT <= *counter {
        set(intstat, CNT);
    }
}

// Counts an arrival that is lost, with a bit of RSTAT and one of INTSTAT that say why.
pub(crate) fn count_lost(r: &mut Registers, reason: u32, cause: u32)
    requires reason { reason < 8 }
    requires cause { cause < 8 }
    ensures { r.new ≡ counted cause (with_rstat r.old (with_bit reason r.old.rstat)) }
{
    set(&mut r.rstat, reason);
    set(&mut r.intstat, cause);
    count(&mut r.mpcnt, &mut r.intstat);
}
