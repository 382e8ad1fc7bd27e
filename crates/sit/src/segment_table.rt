// The table of an open image whose SIT entries can be read.
ghost use Rattle.checkpoint.specs.OpenImage.{card_in};
ghost use Rattle.sit.specs.Opening.{SitIn};

use checkpoint::OpenImage;

// `open` alone makes one, so that every main segment's entry lies inside the image wherever one is at hand.
#[derive(Clone, Copy)]
pub struct SegmentTable<'a> {
    pub card: OpenImage<'a>,
    ghost sit_in: { SitIn (card_in card) card.volume },
}
