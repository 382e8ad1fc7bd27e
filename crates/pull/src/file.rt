// A regular file, once its inode is read.
ghost use Rattle.pull.specs.OpenFile.{RegularFile};

use inode::Inode;
use node::File;

// A regular file, and what is read of its inode. `open_file` alone makes one.
#[derive(Clone, Copy)]
pub struct OpenFile<'a> {
    pub file: File<'a>,
    pub inode: Inode,
    ghost regular_file: { RegularFile file inode },
}
