// A checksum of what a finder answers.
ghost use Rattle.bench_export.specs.Checksums.{checksum, joined};
ghost use Rattle.std.specs.Prelude.{◌≡◌, length};

use finder::Finder;

// The factor of the checksum.
const FACTOR: u64 = 0x100000001b3;

// Joins an end and the words that end there; no words leave the checksum as it is.
pub(crate) fn join(sum: u64, end: u64, words: u64) -> u64
    ensures { result ≡ joined sum end words }
{
    if words == 0 {
        return sum;
    }
    sum.wrapping_add(end)
        .wrapping_mul(FACTOR)
        .wrapping_add(words)
}

// The checksum of all ends in an image, and of the words that end there.
pub(crate) fn checksum<F: Finder>(finder: &mut F, image: &[u8]) -> u64
    ensures { result ≡ checksum (F.Finder.words finder.old) image.now (length image.now) }
{
    finder.rest();
    let mut sum = 0;
    for (i, byte) in image.iter().enumerate() {
        sum = join(sum, i as u64 + 1, finder.take(*byte));
    }
    sum
}
