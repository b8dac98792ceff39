ghost use Rattle.finder.specs.Meaning.{FollowsBytes, Heard};

use crate::finder::Finder;

// Rests the finder, takes the bytes in order, and answers which words they end with: the last mask, and none where there are no bytes.
pub fn hear<F: Finder>(finder: &mut F, bytes: &[u8]) -> u64
    ensures heard { Heard F.Finder finder.old bytes.now finder.new result }
    ensures law { FollowsBytes F.Finder finder.old bytes.now finder.new result }
{
    finder.rest();
    let mut answer = 0;
    for b in bytes {
        answer = finder.take(*b);
    }
    answer
}
