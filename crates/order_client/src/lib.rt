// A client of a scan: an order is issued and carried out at once.
#![tactic(auto)]

ghost use Rattle.order_client.specs.Entering.{Entered};

use finder::Finder;
use landmark::Fault;
use scan::Scan;

// Enters by a landmark: answers the entry, or why no order is issued.
pub fn enter<F: Finder>(scan: &mut Scan<F>, landmark: usize) -> Result<usize, Fault>
    ensures { Entered scan.old landmark result scan.new }
{
    let order = scan.issue(landmark)?;
    Ok(scan.carry_out(order).unwrap())
}
