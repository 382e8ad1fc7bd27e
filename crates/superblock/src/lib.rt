// The superblock: which copy is used, and the areas that it names.
// What each means is in specs/: Shape, Superblock, Areas.
#![tactic(auto)]

ghost use Rattle.std.specs.Prelude.{◌≡◌, ◌≤◌, ◌<◌, length, eqb, Some, None};
ghost use Rattle.field.specs.Choice.{choose};
ghost use Rattle.superblock.specs.Shape.{in_shape};
ghost use Rattle.superblock.specs.Shaped.{shaped_card, Shaped};
ghost use Rattle.field.specs.Bytes.{same_at};
ghost use Rattle.superblock.specs.Superblock.{copy_of, mark, superblock_of, logs_pass, units_pass, even_pairs};
ghost use Rattle.superblock.specs.Superblock.{counts_pass, end_of, areas_pass, ends_pass, fields_pass, passes};
ghost use Rattle.superblock.specs.Areas.{areas_of, accepted, found};
ghost use Rattle.superblock.specs.Search.{found_in};

use answer::Refusal;

mod shaped_image;

pub use shaped_image::ShapedImage;

// The most blocks that an image may have, which are 16 GiB.
const MOST_BLOCKS: usize = 4194304;

// A copy's fields, under their names in the Linux header.
#[derive(Clone, Copy)]
pub struct Superblock {
    pub log_sectorsize: u32,
    pub log_sectors_per_block: u32,
    pub log_blocksize: u32,
    pub log_blocks_per_seg: u32,
    pub segs_per_sec: u32,
    pub secs_per_zone: u32,
    pub block_count: u64,
    pub segment_count: u32,
    pub segment_count_ckpt: u32,
    pub segment_count_sit: u32,
    pub segment_count_nat: u32,
    pub segment_count_ssa: u32,
    pub segment_count_main: u32,
    pub segment0_blkaddr: u32,
    pub cp_blkaddr: u32,
    pub sit_blkaddr: u32,
    pub nat_blkaddr: u32,
    pub ssa_blkaddr: u32,
    pub main_blkaddr: u32,
    pub root_ino: u32,
    pub node_ino: u32,
    pub meta_ino: u32,
    pub cp_payload: u32,
    pub feature: u32,
}

// The block address of each area, and its size in segments. The main area ends before block main_end.
#[repr(C)]
#[derive(Clone, Copy)]
pub struct Areas {
    pub checkpoint: u32,
    pub sit: u32,
    pub sit_segments: u32,
    pub nat: u32,
    pub nat_segments: u32,
    pub ssa: u32,
    pub ssa_segments: u32,
    pub main: u32,
    pub main_segments: u32,
    pub main_end: u32,
}

// Whether an image of so many bytes is in shape.
pub fn in_shape(bytes: usize) -> bool
    ensures { result ≡ in_shape bytes }
{
    (bytes % 4096 == 0) & (2 <= bytes / 4096) & (bytes / 4096 <= MOST_BLOCKS)
}

impl<'a> ShapedImage<'a> {
    pub fn of(image: &'a [u8]) -> Result<ShapedImage<'a>, Refusal>
        ensures { Shaped image.now result }
    {
        if !in_shape(image.len()) {
            return Err(Refusal::OutOfShape);
        }
        Ok(ShapedImage { bytes: image })
    }
}

fn has_mark(copy: &[u8]) -> bool
    requires { 4 ≤ length copy.now }
    ensures { result ≡ same_at copy.now 0 mark }
{
    field::same_at(copy, 0, b"\x10\x20\xF5\xF2")
}

fn read_fields(copy: &[u8]) -> Superblock
    requires { 3072 ≤ length copy.now }
    ensures { result ≡ superblock_of copy.now }
{
    Superblock {
        log_sectorsize: field::get32(copy, 8),
        log_sectors_per_block: field::get32(copy, 12),
        log_blocksize: field::get32(copy, 16),
        log_blocks_per_seg: field::get32(copy, 20),
        segs_per_sec: field::get32(copy, 24),
        secs_per_zone: field::get32(copy, 28),
        block_count: field::get64(copy, 36),
        segment_count: field::get32(copy, 48),
        segment_count_ckpt: field::get32(copy, 52),
        segment_count_sit: field::get32(copy, 56),
        segment_count_nat: field::get32(copy, 60),
        segment_count_ssa: field::get32(copy, 64),
        segment_count_main: field::get32(copy, 68),
        segment0_blkaddr: field::get32(copy, 72),
        cp_blkaddr: field::get32(copy, 76),
        sit_blkaddr: field::get32(copy, 80),
        nat_blkaddr: field::get32(copy, 84),
        ssa_blkaddr: field::get32(copy, 88),
        main_blkaddr: field::get32(copy, 92),
        root_ino: field::get32(copy, 96),
        node_ino: field::get32(copy, 100),
        meta_ino: field::get32(copy, 104),
        cp_payload: field::get32(copy, 1664),
        feature: field::get32(copy, 2180),
    }
}

fn logs_pass(s: Superblock) -> bool
    ensures { result ≡ logs_pass s }
{
    (s.log_blocksize == 12)
        & (s.log_blocks_per_seg == 9)
        & (9 <= s.log_sectorsize)
        & (s.log_sectorsize <= 12)
        & (s.log_sectorsize as u64 + s.log_sectors_per_block as u64 == 12)
}

fn units_pass(s: Superblock) -> bool
    ensures { result ≡ units_pass s }
{
    (1 <= s.segs_per_sec)
        & (1 <= s.secs_per_zone)
        & (s.root_ino == 3)
        & (s.node_ino == 1)
        & (s.meta_ino == 2)
}

fn even_pairs(count: u32) -> bool
    ensures { result ≡ even_pairs count }
{
    (count % 2 == 0) & (2 <= count)
}

fn counts_pass(s: Superblock) -> bool
    ensures { result ≡ counts_pass s }
{
    (s.segment_count_ckpt == 2) & even_pairs(s.segment_count_sit) & even_pairs(s.segment_count_nat)
}

// In 64 bits the sum is exact for every copy.
fn end_of(start: u32, segments: u32) -> u64
    ensures { result ≡ end_of start segments }
{
    start as u64 + 512 * (segments as u64)
}

// Whether an area starts where the one before ends.
fn follows(next: u32, start: u32, segments: u32) -> bool
    ensures { result ≡ eqb next (end_of start segments) }
{
    let end = end_of(start, segments);
    next as u64 == end
}

fn areas_pass(s: Superblock) -> bool
    ensures { result ≡ areas_pass s }
{
    (s.segment0_blkaddr == s.cp_blkaddr)
        & (2 <= s.segment0_blkaddr)
        & follows(s.sit_blkaddr, s.cp_blkaddr, s.segment_count_ckpt)
        & follows(s.nat_blkaddr, s.sit_blkaddr, s.segment_count_sit)
        & follows(s.ssa_blkaddr, s.nat_blkaddr, s.segment_count_nat)
        & follows(s.main_blkaddr, s.ssa_blkaddr, s.segment_count_ssa)
}

fn ends_pass(blocks: u64, s: Superblock) -> bool
    ensures { result ≡ ends_pass blocks s }
{
    let main_end = end_of(s.main_blkaddr, s.segment_count_main);
    let end = end_of(s.segment0_blkaddr, s.segment_count);
    (main_end <= end) & (end <= s.block_count) & (s.block_count <= blocks)
}

fn fields_pass(blocks: u64, s: Superblock) -> bool
    ensures { result ≡ fields_pass blocks s }
{
    logs_pass(s) & units_pass(s) & counts_pass(s) & areas_pass(s) & ends_pass(blocks, s)
}

// The bytes of a block's copy, from its start on.
fn copy_of(block: &[u8]) -> &[u8]
    requires { length block.now ≡ 4096 }
    ensures { (result.now ≡ copy_of block.now) × (length result.now ≡ 3072) }
{
    &block[1024..]
}

// The copy in a block of a card of so many blocks: its fields, if it passes. They are read once, for the test and for the answer.
pub fn try_copy(block: &[u8], blocks: u64) -> Option<Superblock>
    requires { length block.now ≡ 4096 }
    ensures { result
        ≡ choose (passes blocks (copy_of block.now))
        (Some (superblock_of (copy_of block.now)))
        None }
{
    let copy = copy_of(block);
    let s = read_fields(copy);
    if has_mark(copy) & fields_pass(blocks, s) {
        Some(s)
    } else {
        None
    }
}

// A main area that ends in the card has an end that fits 32 bits.
fn areas_of(s: Superblock) -> Areas
    requires { end_of s.main_blkaddr s.segment_count_main < 4294967296 }
    ensures { result ≡ areas_of s }
{
    Areas {
        checkpoint: s.cp_blkaddr,
        sit: s.sit_blkaddr,
        sit_segments: s.segment_count_sit,
        nat: s.nat_blkaddr,
        nat_segments: s.segment_count_nat,
        ssa: s.ssa_blkaddr,
        ssa_segments: s.segment_count_ssa,
        main: s.main_blkaddr,
        main_segments: s.segment_count_main,
        main_end: end_of(s.main_blkaddr, s.segment_count_main) as u32,
    }
}

// The areas that the copy in use names, unless the card has what isn't read.
pub fn accept(s: Superblock) -> Result<Areas, Refusal>
    requires { end_of s.main_blkaddr s.segment_count_main < 4294967296 }
    ensures { found_in result ≡ accepted s }
{
    if (s.feature == 0) & (s.cp_payload == 0) {
        Ok(areas_of(s))
    } else {
        Err(Refusal::Features)
    }
}

// The copy in block 1 is looked at only if the one in block 0 fails.
pub fn find_superblock(image: ShapedImage) -> Result<Areas, Refusal>
    ensures { found_in result ≡ found (shaped_card image.entry) }
{
    let blocks = field::image_blocks(image.bytes);
    let first = try_copy(field::block_at(image.bytes, 0), blocks);
    match first {
        Some(s) => accept(s),
        None => {
            let second = try_copy(field::block_at(image.bytes, 1), blocks);
            match second {
                Some(s) => accept(s),
                None => Err(Refusal::NoSuperblock),
            }
        }
    }
}
