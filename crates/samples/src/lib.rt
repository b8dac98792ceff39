// Worked examples, proved as one list of statements about the definitions.
#![tactic(auto)]

ghost use Rattle.samples.specs.Samples.{Samples};

// Every sample holds.
pub fn samples_hold()
    ensures { Samples }
{}
