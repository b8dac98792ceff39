ghost use Rattle.calls.specs.Rows.{Makes};
ghost use Rattle.calls.specs.declared.call.Call.TheVariants.{CarryOut, Issue, StrikeOff};

use crate::call::{Answer, Call};
use crate::holder::Holder;
use finder::Finder;

impl<F: Finder> Holder<F> {
    // Makes one call.
    pub(crate) fn make(&mut self, call: Call<'_>) -> Answer
        ensures { Makes F.Finder self.old call.entry result self.new }
    {
        match call {
            Call::Open(list, announced) => Answer::Opened(self.scan.open(list, announced)),
            Call::Offer(place, block) => Answer::Taken(self.scan.offer(place, block)),
            Call::Ask(landmark) => Answer::End(self.scan.ask(landmark)),
            Call::Issue(landmark) => self.issue(landmark),
            Call::CarryOut => self.carry_out(),
            Call::StrikeOff => self.strike_off(),
        }
    }

    // Issues an order: none is held where that is accepted.
    fn issue(&mut self, landmark: usize) -> Answer
        ensures { Makes F.Finder self.old (Issue landmark) result self.new }
    {
        match self.scan.issue(landmark) {
            Ok(order) => {
                let numbers = order.numbers();
                match self.order.replace(order) {
                    None => Answer::Issued(Ok(numbers)),
                    Some(_) => unreachable(),
                }
            }
            Err(fault) => Answer::Issued(Err(fault)),
        }
    }

    // Carries out the order that is held.
    fn carry_out(&mut self) -> Answer
        ensures { Makes F.Finder self.old CarryOut result self.new }
    {
        match self.order.take() {
            Some(order) => Answer::CarriedOut(Ok(self.scan.carry_out(order).unwrap())),
            None => Answer::Nothing,
        }
    }

    // Strikes off the order that is held. It calls another function than carrying out, so one body for both is no shorter.
    fn strike_off(&mut self) -> Answer
        ensures { Makes F.Finder self.old StrikeOff result self.new }
    {
        match self.order.take() {
            Some(order) => Answer::StruckOff(Ok(self.scan.strike_off(order).unwrap())),
            None => Answer::Nothing,
        }
    }
}
