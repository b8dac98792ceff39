use landmark::Fault;

// The numbers of an order: its landmark, and the entry where the image begins to run.
#[derive(Clone, Copy, PartialEq, Eq, Debug)]
pub struct Numbers {
    pub landmark: usize,
    pub entry: usize,
}

// An order to enter an image. It cannot be copied or let go: it is spent by carrying it out or striking it off.
pub struct Order {
    pub(crate) numbers: Numbers,
}

// An order that was not accepted, handed back with the fault.
pub struct Returned {
    pub fault: Fault,
    pub order: Order,
}
