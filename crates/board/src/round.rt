ghost use Rattle.std.specs.Prelude.{◌≡◌};
ghost use Rattle.std.specs.Iterator.{YieldsFirst, item_count};

use crate::descriptor::next;
use rules::state::Setup;

// The numbers of so many descriptors, from one on, in their order round the table.
#[derive(Clone, Copy)]
pub(crate) struct Round {
    pub setup: Setup,
    pub at: u8,
    pub left: u8,
}

impl Round {
    pub(crate) fn new(setup: &Setup, from: u8, count: u8) -> Round
        ensures { result ≡ record { setup = setup.now; at = from; left = count } }
    {
        Round {
            setup: *setup,
            at: from,
            left: count,
        }
    }
}

impl Iterator for Round {
    type Item = u8;

    ghost use Rattle.board.specs.Rounds.{numbers_left};

    ghost next_gives = { YieldsFirst numbers_left };

    ghost remaining = { item_count numbers_left };

    fn next(&mut self) -> Option<u8> {
        if self.left == 0 {
            return None;
        }
        let d = self.at;
        self.at = next(&self.setup, d);
        self.left -= 1;
        Some(d)
    }
}
