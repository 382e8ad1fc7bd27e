// The slots of one directory block, or of an inline directory.
ghost use Rattle.std.specs.Prelude.{length};
ghost use Rattle.dentry.specs.Slot.{LayoutIn};

use crate::Layout;

// The bytes from the start of the slots on, and how the slots lie in them.
#[derive(Clone, Copy)]
pub struct Slots<'a> {
    pub part: &'a [u8],
    pub layout: Layout,
    ghost inside: { LayoutIn layout (length part.now) },
}
