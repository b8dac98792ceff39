// Reading a whole list.
ghost use Rattle.landmark.specs.Grammar.{AcceptedExactly};
ghost use Rattle.landmark.specs.Lists.{list_verdict};
ghost use Rattle.std.specs.Prelude.{◌≡◌};

use crate::judge::Judge;
use crate::records::Records;
use crate::refusal::Fault;

// What a list holds.
#[derive(Clone, Copy, PartialEq, Eq, Debug, Default)]
pub struct Counts {
    pub landmarks: usize,
    pub words: usize,
    pub run_bytes: usize,
}

// The counts of a list, or its first fault.
pub fn read_list(list: &[u8]) -> Result<Counts, Fault>
    ensures exact { result ≡ list_verdict list.now }
    ensures law { AcceptedExactly list.now result }
{
    let mut judge = Judge::new();
    for read in Records::of(list) {
        let read = read?;
        judge
            .take(read.element)
            .map_err(|refusal| refusal.at(read.place))?;
    }
    judge.finish(list.len())
}
