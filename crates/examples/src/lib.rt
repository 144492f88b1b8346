#![tactic(auto)]

ghost use Rattle.std.specs.Prelude.{◌≡◌};
ghost use Rattle.examples.specs.Examples.{ExamplesHold};
ghost use Rattle.examples.specs.Witness.{HasRuns};

/// The ten bench examples follow from the rules.
pub fn examples_hold() -> u8
    ensures answer { result ≡ 0 }
    ensures holds { ExamplesHold }
{
    0
}

/// The law over runs has runs to speak of: an accepted open, and calls that keep, take and release frames and miss one.
pub fn law_has_runs() -> u8
    ensures answer { result ≡ 0 }
    ensures holds { HasRuns }
{
    0
}
