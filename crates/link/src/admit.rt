// Whether a list and a table go together.
ghost use Rattle.link.specs.Admitting.{Admits};
ghost use Rattle.words.specs.Index.{Indexes};

use landmark::{Fault, Refusal, read_list};
use words::Words;

// Refuses a list with a fault, and a table with fewer entries than its words may need: the root, and one for each run byte.
pub(crate) fn admit(list: &[u8], words: &Words<'_>, entries: usize) -> Result<(), Fault>
    requires { Indexes list.now words.now }
    ensures { Admits list.now entries result }
{
    read_list(list)?;
    let needed = words.run_bytes() + 1;
    if entries < needed {
        return Err(Refusal::TableTooSmall.at(needed));
    }
    Ok(())
}
