// The theory of the nodes of Aho and Corasick's automaton. Nothing here runs: each call promises a law, and specs and proofs hold what the laws rest on.
#![tactic(auto)]

ghost use Rattle.nodes.specs.Laws.{FailureLaw, PositionLaw};

// What failure links and outputs are, by the words alone.
pub fn failure_law()
    ensures { FailureLaw }
{}

// Where the bytes lead, by the words and the bytes alone.
pub fn position_law()
    ensures { PositionLaw }
{}
