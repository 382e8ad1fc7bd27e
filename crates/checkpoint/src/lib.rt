// Opening a card: the checkpoint pack that is chosen, where its NAT map and journal are, and the volume that they describe.
// What each means is in specs/: Checkpoint, Pack, Journal, Volume.
#![tactic(auto)]

ghost use Rattle.std.specs.Prelude.{◌≡◌, ◌+◌, ◌<◌, ◌≤◌, true, ◌||◌, length, Some, None};
ghost use Rattle.field.specs.Card.{card_of};
ghost use Rattle.field.specs.Choice.{choose};
ghost use Rattle.superblock.specs.Shaped.{shaped_card};
ghost use Rattle.superblock.specs.Areas.{AreasIn};
ghost use Rattle.checkpoint.specs.Checkpoint.{checkpoint_of};
ghost use Rattle.checkpoint.specs.Pack.{block_passes, first_passes, last_passes, pack_passes, newer, chosen};
ghost use Rattle.checkpoint.specs.Journal.{flag_set, damaged, unmount, fastboot, journal_in, journal_placed, journal_offset};
ghost use Rattle.checkpoint.specs.Volume.{maps_readable, header_readable, volume_of, journal_of, journal_readable, open_pack, open_chosen, opened_image};
ghost use Rattle.checkpoint.specs.OpenImage.{volume_read, opening_of, IsOf};

use answer::Refusal;
use superblock::ShapedImage;

mod open_image;

pub use open_image::OpenImage;

// The flags of a pack.
const UNMOUNT: u32 = 1;

pub const COMPACT: u32 = 4;

const ERROR: u32 = 8;

const NEEDS_CHECK: u32 = 16;

const FASTBOOT: u32 = 32;

const LARGE_NAT_MAP: u32 = 1024;

// What is read of a checkpoint block's header, under the names in the Linux header.
#[derive(Clone, Copy)]
pub struct Checkpoint {
    pub checkpoint_ver: u64,
    pub ckpt_flags: u32,
    pub cp_pack_total_block_count: u32,
    pub cp_pack_start_sum: u32,
    pub sit_ver_bitmap_bytesize: u32,
    pub nat_ver_bitmap_bytesize: u32,
    pub checksum_offset: u32,
}

// An opened volume: what every later step reads the card by.
#[repr(C)]
#[derive(Clone, Copy)]
pub struct Volume {
    // The areas that the superblock names.
    pub areas: superblock::Areas,
    // The chosen pack: its first block, its blocks in all, and its flags.
    pub pack: u32,
    pub total: u32,
    pub flags: u32,
    // Where the NAT map starts in the pack's first block, in bytes.
    pub nat_map: u32,
    // The block of the NAT journal, and where the journal starts in it, in bytes.
    pub journal_block: u32,
    pub journal_at: u32,
}

pub fn checkpoint_of(block: &[u8]) -> Checkpoint
    requires { length block.now ≡ 4096 }
    ensures { result ≡ checkpoint_of block.now }
{
    Checkpoint {
        checkpoint_ver: field::get64(block, 0),
        ckpt_flags: field::get32(block, 132),
        cp_pack_total_block_count: field::get32(block, 136),
        cp_pack_start_sum: field::get32(block, 140),
        sit_ver_bitmap_bytesize: field::get32(block, 156),
        nat_ver_bitmap_bytesize: field::get32(block, 160),
        checksum_offset: field::get32(block, 164),
    }
}

// Whether a block passes, by its header. The offset is tested first, since a checksum is dear.
fn block_passes(block: &[u8], cp: Checkpoint) -> bool
    requires { (length block.now ≡ 4096) × (cp ≡ checkpoint_of block.now) }
    ensures { result ≡ block_passes block.now }
{
    if cp.checksum_offset != 4092 {
        return false;
    }
    let sum = crc32::checksum(&block[..4092]);
    field::get32(block, 4092) == sum
}

// Whether a pack's first block passes, by its header. The total is tested first, since a checksum is dear.
pub fn first_passes(first: &[u8], cp: Checkpoint) -> bool
    requires { (length first.now ≡ 4096) × (cp ≡ checkpoint_of first.now) }
    ensures { result ≡ first_passes first.now }
{
    let total = cp.cp_pack_total_block_count;
    if total < 2 {
        return false;
    }
    if 512 < total {
        return false;
    }
    block_passes(first, cp)
}

// Whether a pack's last block passes and has this version, which is tested first.
pub fn last_passes(last: &[u8], version: u64) -> bool
    requires { length last.now ≡ 4096 }
    ensures { result ≡ last_passes last.now version }
{
    let cp = checkpoint_of(last);
    if cp.checkpoint_ver != version {
        return false;
    }
    block_passes(last, cp)
}

// A pack has 512 blocks of the checkpoint area.
fn pack_passes(image: ShapedImage, start: u32) -> bool
    requires start_bound { start + 512 ≤ (shaped_card image).blocks }
    ensures { result ≡ pack_passes (shaped_card image.entry) start }
{
    let first = field::block_at(image.bytes, start);
    let cp = checkpoint_of(first);
    if !first_passes(first, cp) {
        return false;
    }
    let last = field::block_at(image.bytes, start + (cp.cp_pack_total_block_count - 1));
    last_passes(last, cp.checkpoint_ver)
}

// A difference from 2^63 on is below zero as a signed number.
pub fn is_newer(first: Checkpoint, second: Checkpoint) -> bool
    ensures { result ≡ newer first second }
{
    let from = first.checkpoint_ver;
    let to = second.checkpoint_ver;
    let difference = std::num::wrapping_sub_u64(to, from);
    (0 < difference) & (difference < 0x8000000000000000)
}

// The start of the first of two packs that passes; the other is tested only if that one doesn't.
fn first_passing(image: ShapedImage, one: u32, other: u32) -> Option<u32>
    requires one_bound { one + 512 ≤ (shaped_card image).blocks }
    requires other_bound { other + 512 ≤ (shaped_card image).blocks }
    ensures { result
        ≡ choose (pack_passes (shaped_card image.entry) one) (Some one)
        (choose (pack_passes (shaped_card image.entry) other) (Some other) None) }
{
    if pack_passes(image, one) {
        return Some(one);
    }
    if pack_passes(image, other) {
        return Some(other);
    }
    None
}

// The pack that wins by its version, if it passes, is chosen whatever the other holds: so it is tested first. Usually that
// spares the other's two checksums.
fn choose_pack(image: ShapedImage, address: u32) -> Option<u32>
    requires address_bound { address + 1024 ≤ (shaped_card image).blocks }
    ensures { result ≡ chosen (shaped_card image.entry) address }
{
    let second = address + 512;
    let one = checkpoint_of(field::block_at(image.bytes, address));
    let other = checkpoint_of(field::block_at(image.bytes, second));
    if is_newer(one, other) {
        first_passing(image, second, address)
    } else {
        first_passing(image, address, second)
    }
}

pub fn flag_set(flags: u32, one: u32) -> bool
    requires { 0 < one }
    ensures { result ≡ flag_set flags one }
{
    flags / one % 2 == 1
}

// Whether a pack's flags say that the volume is damaged.
fn damaged(cp: Checkpoint) -> bool
    ensures { result ≡ damaged cp }
{
    flag_set(cp.ckpt_flags, ERROR) | flag_set(cp.ckpt_flags, NEEDS_CHECK)
}

// How far before the pack's end the journal block of a pack that isn't compact is.
fn journal_back(cp: Checkpoint) -> u32
    ensures { result ≡ choose (unmount cp || fastboot cp) 7 4 }
{
    if flag_set(cp.ckpt_flags, UNMOUNT) | flag_set(cp.ckpt_flags, FASTBOOT) {
        7
    } else {
        4
    }
}

fn journal_in(cp: Checkpoint) -> u32
    ensures { result ≡ journal_in cp }
{
    if flag_set(cp.ckpt_flags, COMPACT) {
        return cp.cp_pack_start_sum;
    }
    let back = journal_back(cp);
    let total = cp.cp_pack_total_block_count;
    if total < back { 0 } else { total - back }
}

// A pack's total is at least 2.
fn journal_placed(cp: Checkpoint) -> bool
    requires { 2 ≤ cp.cp_pack_total_block_count }
    ensures { result ≡ journal_placed cp }
{
    let block = journal_in(cp);
    (1 <= block) & (block <= cp.cp_pack_total_block_count - 2)
}

fn journal_at(cp: Checkpoint) -> u32
    ensures { result ≡ journal_offset cp }
{
    if flag_set(cp.ckpt_flags, COMPACT) {
        0
    } else {
        3584
    }
}

// In 64 bits the sums are exact, whatever sizes the header names.
fn maps_readable(areas: superblock::Areas, cp: Checkpoint) -> bool
    requires { 2 ≤ cp.cp_pack_total_block_count }
    ensures { result ≡ maps_readable areas cp }
{
    let sit = cp.sit_ver_bitmap_bytesize as u64;
    let nat = cp.nat_ver_bitmap_bytesize as u64;
    !flag_set(cp.ckpt_flags, LARGE_NAT_MAP)
        & (sit == 32 * (areas.sit_segments as u64))
        & (nat == 32 * (areas.nat_segments as u64))
        & (192 + sit + nat <= 4092)
        & journal_placed(cp)
}

pub fn header_readable(areas: superblock::Areas, cp: Checkpoint) -> bool
    requires { 2 ≤ cp.cp_pack_total_block_count }
    ensures { result ≡ header_readable areas cp }
{
    !damaged(cp) & maps_readable(areas, cp)
}

// The volume of a pack whose maps are readable: each sum is a block address, or an offset in a block.
pub fn volume_of(areas: superblock::Areas, start: u32, cp: Checkpoint) -> Volume
    requires cp_pack_total_block_count_bound { start + cp.cp_pack_total_block_count < 4294967296 }
    requires cp_value { maps_readable areas cp ≡ true }
    ensures { result ≡ volume_of areas start cp }
{
    Volume {
        areas,
        pack: start,
        total: cp.cp_pack_total_block_count,
        flags: cp.ckpt_flags,
        nat_map: 192 + cp.sit_ver_bitmap_bytesize,
        journal_block: start + journal_in(cp),
        journal_at: journal_at(cp),
    }
}

// The journal, from its start to the end of its block.
pub fn journal_of(image: &[u8], v: Volume) -> &[u8]
    requires journal_block_bound { v.journal_block < (card_of image.now).blocks }
    requires journal_at_bound { v.journal_at ≤ 3584 }
    ensures { result.now ≡ journal_of (card_of image.now) v }
{
    let block = field::block_at(image, v.journal_block);
    let at = v.journal_at as usize;
    &block[at..]
}

// A journal has room for its count and 38 entries.
pub fn journal_readable(journal: &[u8]) -> bool
    requires { 496 ≤ length journal.now }
    ensures { result ≡ journal_readable journal.now }
{
    if !journal::count_within(journal, 38) {
        return false;
    }
    !journal::names_twice(journal, 13)
}

fn open_pack(image: ShapedImage, areas: superblock::Areas, start: u32) -> Result<Volume, Refusal>
    requires start_bound { start + 512 ≤ (shaped_card image).blocks }
    requires start_value { pack_passes (shaped_card image) start ≡ true }
    ensures { volume_read result ≡ open_pack (shaped_card image.entry) areas start }
{
    let cp = checkpoint_of(field::block_at(image.bytes, start));
    if !header_readable(areas, cp) {
        return Err(Refusal::Unreadable);
    }
    let volume = volume_of(areas, start, cp);
    if !journal_readable(journal_of(image.bytes, volume)) {
        return Err(Refusal::Unreadable);
    }
    Ok(volume)
}

fn open_areas(image: ShapedImage, areas: superblock::Areas) -> Result<Volume, Refusal>
    requires areas_in { AreasIn (shaped_card image).blocks areas }
    ensures { volume_read result ≡ open_chosen (shaped_card image.entry) areas (chosen (shaped_card image.entry) areas.checkpoint) }
{
    match choose_pack(image, areas.checkpoint) {
        Some(start) => open_pack(image, areas, start),
        None => Err(Refusal::NoCheckpoint),
    }
}

// The image's shape first, then its superblock, then its checkpoint.
pub fn open(image: &[u8]) -> Result<OpenImage<'_>, Refusal>
    ensures opening { opening_of result ≡ opened_image image.now }
    ensures same_image { IsOf image.now result }
{
    let shaped = ShapedImage::of(image)?;
    let areas = superblock::find_superblock(shaped)?;
    let volume = open_areas(shaped, areas)?;
    Ok(OpenImage { image, volume })
}
