// A directory of an image that opens.
ghost use Rattle.std.specs.Prelude.{◌≡◌, true, ◌<◌, ◌≤◌};

use node::File;

// A directory: its inode as a file, whether its slots are in the inode itself, its directory level, and how many hash levels are searched.
// An inline directory is one hash level of one block, without a directory level.
#[derive(Clone, Copy)]
pub struct Directory<'a> {
    pub file: File<'a>,
    pub inline: bool,
    pub dir_level: usize,
    pub depth: usize,
    ghost levels_in: { (dir_level < 31) × (depth ≤ 63) },
    ghost inline_in: { inline ≡ true → (dir_level ≡ 0) × (depth ≡ 1) },
}
