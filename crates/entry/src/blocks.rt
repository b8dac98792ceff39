// An image in blocks.
ghost use Rattle.entry.specs.Blocks.{BlockTo};

// The bytes of an image from a place on up to a cut: none where the cut lies before the place, and no more than there are.
pub fn block_to<'a>(image: &'a [u8], place: usize, cut: usize) -> &'a [u8]
    ensures { BlockTo image.now place cut result.now }
{
    let from = place.min(image.len());
    let to = cut.clamp(from, image.len());
    &image[from..to]
}
