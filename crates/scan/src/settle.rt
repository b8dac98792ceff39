ghost use Rattle.scan.specs.Calls.{CarriedOut, Settled, StruckOff, with_out};
ghost use Rattle.scan.specs.Rules.{settle_refusal};
ghost use Rattle.std.specs.Prelude.{◌≡◌, None};

use crate::order::{Numbers, Order, Returned};
use crate::scan::Scan;
use finder::Finder;
use landmark::Refusal;

impl Order {
    // The order's landmark and entry.
    pub fn numbers(&self) -> Numbers
        ensures { result ≡ self.now.numbers }
    {
        self.numbers
    }
}

impl<F: Finder> Scan<F> {
    // Spends the order that is out, and answers its numbers.
    fn settle(&mut self, order: Order) -> Result<Numbers, Returned>
        ensures { Settled (settle_refusal self.old.out order.numbers) order order.numbers result (self.new ≡ with_out None self.old) self.old self.new }
    {
        if self.out != Some(order.numbers) {
            let fault = Refusal::OtherOrder.at(order.numbers.entry);
            return Err(Returned { fault, order });
        }
        let Order { numbers } = order;
        self.out = None;
        Ok(numbers)
    }

    // Spends an order by carrying it out, and answers its entry.
    pub fn carry_out(&mut self, order: Order) -> Result<usize, Returned>
        ensures { CarriedOut F.Finder self.old order result self.new }
    {
        self.settle(order).map(|numbers| numbers.entry)
    }

    // Spends an order by striking it off.
    pub fn strike_off(&mut self, order: Order) -> Result<(), Returned>
        ensures { StruckOff F.Finder self.old order result self.new }
    {
        self.settle(order).map(|_| ())
    }
}
