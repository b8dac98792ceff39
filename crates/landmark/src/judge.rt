// What is kept of the records of a list while they are judged.
ghost use Rattle.std.specs.Prelude.{◌*◌, ◌≤◌};

use crate::list::Counts;
use crate::spacing::Spacing;

// What a record is in the order of a list: an operator is a gap, a star or an any.
#[derive(Clone, Copy)]
pub(crate) enum Sort {
    Start,
    Run,
    Operator,
}

#[derive(Drop)]
pub(crate) struct Judge {
    pub(crate) counts: Counts,
    pub(crate) newest: Option<Sort>,
    // the gap since the last run
    pub(crate) spacing: Spacing,
    ghost few: { counts.words ≤ 64 },
    ghost small: { counts.run_bytes ≤ 64 * counts.words },
}
