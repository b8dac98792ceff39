ghost use Rattle.calls.specs.Rows.{RanRow};

use crate::call::{Answer, Call};
use crate::holder::Holder;
use finder::Finder;
use scan::{Order, Scan};

// A scan after a row of calls, and the order that it has out.
pub struct Ran<F: Finder> {
    pub scan: Scan<F>,
    pub order: Option<Order>,
}

// Makes a scan of a finder, makes the calls upon it in order, as far as there is room for their answers, and hands it out.
pub fn run_calls<F: Finder>(finder: F, calls: &[Call<'_>], answers: &mut [Answer]) -> Ran<F>
    ensures { RanRow F.Finder finder calls.now answers.old answers.new result.order result.scan }
{
    let mut holder = Holder {
        scan: Scan::new(finder),
        order: None,
    };
    // A proof learns nothing of what a zip with `iter_mut` writes, so the answers go by index.
    let room = calls.len().min(answers.len());
    for (i, call) in calls[..room].iter().enumerate() {
        answers[i] = holder.make(*call);
    }
    let Holder { scan, order } = holder;
    Ran { scan, order }
}
