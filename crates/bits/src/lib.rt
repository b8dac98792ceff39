// Bits of numbers: a walk over the bits that are set, and the laws that proofs about masks share.
#![tactic(auto)]

ghost use Rattle.bits.specs.Lowest.{TakesLowest};
ghost use Rattle.std.specs.Iterator.{at_most};

// The places of a number's set bits, lowest first.
#[derive(Clone, Debug, Drop)]
pub struct SetBits(pub u64);

impl Iterator for SetBits {
    type Item = usize;

    ghost next_gives = { λ s place t. TakesLowest s.0 place t.0 };

    ghost remaining = { λ s. at_most s.0 };

    fn next(&mut self) -> Option<usize> {
        take_lowest(&mut self.0)
    }
}

// Takes the lowest set bit off, and answers its place: none where no bit is set.
pub fn take_lowest(bits: &mut u64) -> Option<usize>
    ensures { TakesLowest bits.old result bits.new }
{
    if *bits == 0 {
        return None;
    }
    let place = bits.trailing_zeros() as usize;
    *bits &= *bits - 1;
    Some(place)
}
