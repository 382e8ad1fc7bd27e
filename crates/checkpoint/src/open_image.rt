// An image that opens.
ghost use Rattle.field.specs.Card.{card_of};
ghost use Rattle.checkpoint.specs.Volume.{VolumeIn};

use crate::Volume;

// An image and the volume that its superblock and checkpoint pack describe. `open` alone makes one, so that what it rests on lies inside
// the image wherever one is at hand.
#[derive(Clone, Copy)]
pub struct OpenImage<'a> {
    pub image: &'a [u8],
    pub volume: Volume,
    ghost volume_in: { VolumeIn (card_of image.now) volume },
}
