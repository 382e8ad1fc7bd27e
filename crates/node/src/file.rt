// A file of an image that opens.
ghost use Rattle.std.specs.Prelude.{◌<◌, ◌≤◌};
ghost use Rattle.checkpoint.specs.OpenImage.{card_in};

use checkpoint::OpenImage;

// A file: the image that it is on, its inode number, the block of its inode, and how many addresses the inode holds. That block is one of
// the card's, and an inode has room for 923 addresses.
#[derive(Clone, Copy)]
pub struct File<'a> {
    pub card: OpenImage<'a>,
    pub ino: u32,
    pub inode: u32,
    pub addresses: u32,
    ghost file_in: { (inode < (card_in card).blocks) × (addresses ≤ 923) },
}
