// Calls on a scan, and what they answer.
use landmark::Fault;
use scan::Numbers;

// A call. The orders are those that the scan issued before.
#[derive(Clone, Copy)]
pub enum Call<'a> {
    Open(&'a [u8], usize),
    Offer(usize, &'a [u8]),
    Ask(usize),
    Issue(usize),
    CarryOut,
    StrikeOff,
}

// What a call answered: an order by its numbers, and nothing where there was no order to settle.
#[derive(Clone, Copy)]
pub enum Answer {
    Nothing,
    Opened(Result<(), Fault>),
    Taken(Result<usize, Fault>),
    End(Result<Option<usize>, Fault>),
    Issued(Result<Numbers, Fault>),
    CarriedOut(Result<usize, Fault>),
    StruckOff(Result<(), Fault>),
}
