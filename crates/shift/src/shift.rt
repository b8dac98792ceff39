// The shift finder.
ghost use Rattle.std.specs.Prelude.{ℕ, ◌<◌};
ghost use Rattle.shift.specs.Comparing.{RightAt};
ghost use Rattle.shift.specs.Register.{Marks};
ghost use Rattle.shift.specs.Table.{entries};
ghost use Rattle.words.specs.Index.{indexed};

use crate::edges::Edges;
use crate::narrow::Narrow;

// All words at once: bit p of the register says that a half-read string ends at run byte p.
#[derive(Drop)]
pub struct ShiftFinder<'a> {
    pub(crate) words: Narrow<'a>,
    pub(crate) table: &'a [u64],
    pub(crate) register: u64,
    pub(crate) edges: Edges,
    ghost numbers: { (c : ℕ) → c < entries → RightAt (indexed words.index) table.now c },
    ghost marked: { Marks (indexed words.index) edges },
}
