// What is read of an inode, and which inodes are read.
// What each means is in specs/Inode.antt.
#![tactic(auto)]

ghost use Rattle.std.specs.Prelude.{◌≡◌, false, ◌%◌, ◌≤◌, eqb, length};
ghost use Rattle.inode.specs.Inode.{inode_of, has_inline_data, has_inline_dentry, has_extra_attr, data_room, is_directory, is_regular};
ghost use Rattle.inode.specs.Inode.{levels_in, dir_level_in, addresses_in, is_past, count_in};

// Where contents start that are in the inode itself.
pub const INLINE_START: usize = 364;

// Flags of the inline byte.
const INLINE_XATTR: u8 = 0x01;

const INLINE_DATA: u8 = 0x02;

const INLINE_DENTRY: u8 = 0x04;

const EXTRA_ATTR: u8 = 0x20;

// What is read of an inode.
#[derive(Clone, Copy)]
pub struct Inode {
    pub mode: u16,
    pub inline: u8,
    pub size: u64,
    pub depth: u32,
    pub level: u8,
}

#[tactic(auto, unfolding(crate::specs::Inode::inode_of))]
pub fn inode_of(block: &[u8]) -> Inode
    requires { length block.now ≡ 4096 }
    ensures { result ≡ inode_of block.now }
{
    Inode {
        mode: field::get16(block, 0),
        inline: block[3],
        size: field::get64(block, 16),
        depth: field::get32(block, 72),
        level: block[347],
    }
}

// Whether a file's bytes are in the inode itself.
#[tactic(auto, using(crate::proofs::Flags::flag), unfolding(crate::specs::Inode::has_inline_data))]
pub fn has_inline_data(i: Inode) -> bool
    ensures { result ≡ has_inline_data i }
{
    i.inline & INLINE_DATA != 0
}

// Whether a directory's entries are in the inode itself.
#[tactic(auto, using(crate::proofs::Flags::flag), unfolding(crate::specs::Inode::has_inline_dentry))]
pub fn has_inline_dentry(i: Inode) -> bool
    ensures { result ≡ has_inline_dentry i }
{
    i.inline & INLINE_DENTRY != 0
}

#[tactic(auto, using(crate::proofs::Flags::flag), unfolding(crate::specs::Inode::has_extra_attr))]
fn has_extra_attr(i: Inode) -> bool
    ensures { result ≡ has_extra_attr i }
{
    i.inline & EXTRA_ATTR != 0
}

// Whether fifty words are kept for attributes.
#[tactic(auto, using(crate::proofs::Flags::flag))]
fn has_inline_xattr(i: Inode) -> bool
    ensures { result ≡ eqb (i.inline % 2) 1 }
{
    i.inline & INLINE_XATTR != 0
}

// How many bytes of a file an inode has room for.
#[tactic(auto, unfolding(crate::specs::Inode::data_room))]
fn data_room(i: Inode) -> u64
    ensures { result ≡ data_room i }
{
    if has_inline_xattr(i) { 3488 } else { 3688 }
}

#[tactic(auto, unfolding(crate::specs::Inode::is_directory))]
pub fn is_directory(i: Inode) -> bool
    ensures { result ≡ is_directory i }
{
    i.mode / 4096 == 4
        && !has_inline_data(i)
        && !has_extra_attr(i)
        && (!has_inline_dentry(i) || i.size <= 3488)
        && i.depth <= 63
        && i.level < 31
}

#[tactic(auto, unfolding(crate::specs::Inode::is_regular))]
pub fn is_regular(i: Inode) -> bool
    ensures { result ≡ is_regular i }
{
    i.mode / 4096 == 8
        && !has_inline_dentry(i)
        && !has_extra_attr(i)
        && (!has_inline_data(i) || i.size <= data_room(i))
}

// How many hash levels of a directory are searched.
#[tactic(auto, unfolding(crate::specs::Inode::levels_in))]
pub fn levels_in(i: Inode) -> usize
    ensures { result ≡ levels_in i }
{
    if has_inline_dentry(i) {
        1
    } else {
        i.depth as usize
    }
}

// The directory level that they go by.
#[tactic(auto, unfolding(crate::specs::Inode::dir_level_in))]
pub fn dir_level_in(i: Inode) -> usize
    ensures { result ≡ dir_level_in i }
{
    if has_inline_dentry(i) {
        0
    } else {
        i.level as usize
    }
}

#[tactic(auto, unfolding(crate::specs::Inode::addresses_in))]
pub fn addresses_in(i: Inode) -> u32
    ensures { (result ≡ addresses_in i) × (result ≤ 923) }
{
    if has_inline_xattr(i) { 873 } else { 923 }
}

#[tactic(auto, unfolding(crate::specs::Inode::is_past))]
pub fn is_past(i: Inode, index: u32) -> bool
    ensures { result ≡ is_past i index }
{
    let last = addresses_in(i) as u64 + 1057052515;
    let n = index as u64;
    i.size <= n * 4096 || last < n
}

// How many bytes of the block are the file's.
pub fn count_in(i: Inode, index: u32) -> usize
    requires { is_past i index ≡ false }
    ensures { (result ≡ count_in i index) × (1 ≤ result) × (result ≤ 4096) }
{
    let left = i.size - index as u64 * 4096;
    left.min(4096) as usize
}
