// Issuing orders and spending them.
ghost use Rattle.scan_tests.specs.Keeping.{Keeps, Settles};
ghost use Rattle.std.specs.Prelude.{◌≡◌, Some};

use crate::calls::{Answer, Said};
use finder::Finder;
use landmark::Fault;
use scan::{Order, Returned, Scan};

// How an order is spent. No closure: what it does to the scan would have to be told in each contract.
#[derive(Clone, Copy)]
pub(crate) enum Way {
    CarryOut,
    StrikeOff,
}

// The number and the detail of a fault.
pub(crate) fn numbers(fault: Fault) -> (u8, usize) {
    (fault.refusal.number(), fault.detail)
}

// Settles an order on a scan that may not have issued it.
fn settle<F: Finder>(scan: &mut Scan<F>, order: Order, way: Way) -> Result<Said, Returned>
    ensures { Settles scan.old.out order result scan.new.out }
{
    match way {
        Way::CarryOut => scan.carry_out(order).map(Said::Entry),
        Way::StrikeOff => scan.strike_off(order).map(|()| Said::Done),
    }
}

// Spends the order that is out.
pub(crate) fn spend<F: Finder>(scan: &mut Scan<F>, order: Order, way: Way) -> Said
    requires { scan.old.out ≡ Some order.numbers }
{
    settle(scan, order, way).unwrap()
}

// Issues an order and spends it.
pub(crate) fn enter<F: Finder>(scan: &mut Scan<F>, landmark: usize, way: Way) -> Answer
    ensures { Keeps scan.old.out scan.new.out }
{
    let order = scan.issue(landmark).map_err(numbers)?;
    Ok(spend(scan, order, way))
}

// What a scan that is to spend an order of another one answers. An order that is handed back is carried out where it was issued.
pub(crate) fn bring<F: Finder, G: Finder>(
    from: &mut Scan<F>,
    to: &mut Scan<G>,
    landmark: usize,
    way: Way,
) -> Result<Answer, Fault> {
    let order = from.issue(landmark)?;
    match settle(to, order, way) {
        Ok(said) => Ok(Ok(said)),
        Err(Returned { fault, order }) => {
            spend(from, order, Way::CarryOut);
            Ok(Err(numbers(fault)))
        }
    }
}

// What a scan whose own order is out answers when the order of another one is carried out on it.
fn carry_other<F: Finder, G: Finder>(
    from: &mut Scan<F>,
    to: &mut Scan<G>,
    other: Order,
    own: Order,
) -> Answer
    requires theirs { from.old.out ≡ Some other.numbers }
    requires ours { to.old.out ≡ Some own.numbers }
{
    match settle(to, other, Way::CarryOut) {
        Ok(said) => {
            spend(from, own, Way::CarryOut);
            Ok(said)
        }
        Err(Returned { fault, order }) => {
            spend(to, own, Way::CarryOut);
            spend(from, order, Way::CarryOut);
            Err(numbers(fault))
        }
    }
}

// The same with orders that are issued for it.
pub(crate) fn exchange<F: Finder, G: Finder>(
    from: &mut Scan<F>,
    to: &mut Scan<G>,
    other: usize,
    own: usize,
) -> Result<Answer, Fault> {
    let own = to.issue(own)?;
    match from.issue(other) {
        Ok(other) => Ok(carry_other(from, to, other, own)),
        Err(fault) => {
            spend(to, own, Way::CarryOut);
            Err(fault)
        }
    }
}
