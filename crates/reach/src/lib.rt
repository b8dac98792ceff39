// Where the words of a landmark are reached: the theory that scanning byte by byte rests on.
#![tactic(auto)]

ghost use Rattle.reach.specs.Laws.{ReachingLaw};

// A word is reached from where the word before it is reached, and a landmark occurs where its last word is reached.
pub fn reaching_law()
    ensures { ReachingLaw }
{}
