// An image in shape.
ghost use Rattle.field.specs.Card.{card_of};
ghost use Rattle.superblock.specs.Shape.{InShape};

// An image that has whole blocks, as many as are read. `ShapedImage::of` alone makes one, so that no address of a block overflows
// wherever one is at hand.
#[derive(Clone, Copy)]
pub struct ShapedImage<'a> {
    pub bytes: &'a [u8],
    ghost in_shape: { InShape (card_of bytes.now) },
}
