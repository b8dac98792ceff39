ghost use Rattle.calls.specs.Held.{numbers_held};
ghost use Rattle.std.specs.Prelude.{◌≡◌};

use scan::{Order, Scan};

// A scan, and the order that it has out. `Ran` has the same fields without the fact, since whoever makes one owes nothing.
pub(crate) struct Holder<F> {
    pub(crate) scan: Scan<F>,
    pub(crate) order: Option<Order>,
    ghost held: { scan.out ≡ numbers_held order },
}
