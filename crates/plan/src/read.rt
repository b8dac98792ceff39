// Making a plan of a list, record by record.
ghost use Rattle.std.specs.Prelude.{◌≡◌, ◌≤◌, List, [], ◌∷◌, Option as Maybe};
ghost use Rattle.landmark.specs.Grammar.{Landmark};
ghost use Rattle.landmark.specs.Records.{Item, item};
ghost use Rattle.plan.specs.Reading.{Plans, Small, SoFar};
ghost use Rattle.plan.specs.Seats.{PlanOf};

use crate::plan::{Plan, Row, Spot};
use landmark::{Element, Fault, Records, Role, Spacing, read_list};

impl Plan {
    // The plan of no landmarks.
    pub fn none() -> Plan
        ensures { PlanOf result [] }
    {
        Plan {
            roles: Row::empty(Role::Entry),
            spots: Row::empty(Spot {
                length: 0,
                landmark: 0,
                front: None,
            }),
        }
    }

    // Takes one element up. `front` is the gap in front of the next word so far, and so is what is answered.
    fn take(&mut self, element: Element<'_>, front: Option<Spacing>) -> Option<Spacing>
        ensures { (is : List Item) (ms : List Landmark) → Small ms → SoFar self.old front (item element.entry ∷ is) ms → SoFar self.new result is ms }
    {
        match element {
            Element::Start(role) => {
                self.roles.push(role);
                None
            }
            Element::Run(bytes) => {
                let landmark = self.roles.count.saturating_sub(1);
                self.spots.push(Spot {
                    length: bytes.len(),
                    landmark,
                    front,
                });
                Some(Spacing::none())
            }
            // One arm an operator, as in judging a list: it is what keeps reading fast.
            Element::Gap(_) => Some(front?.plus(element.allowance())),
            Element::Star => Some(front?.plus(Element::Star.allowance())),
            Element::Any => Some(front?.plus(Element::Any.allowance())),
        }
    }

    // The plan of a list, or the list's first fault.
    pub fn read(list: &[u8]) -> Result<Plan, Fault>
        ensures { Plans list.now result }
    {
        read_list(list)?;
        let mut plan = Plan::none();
        let mut front = None;
        for read in Records::of(list) {
            front = plan.take(read?.element, front);
        }
        Ok(plan)
    }
}
