// The segment information table (SIT): a main segment's entry, by the journal first and then by the table, and what it says.
// What each means is in specs/: Entry, Table, Opening, SegmentTable.
#![tactic(auto)]

ghost use Rattle.std.specs.Prelude.{◌≡◌, ◌+◌, ◌*◌, ◌≤◌, ◌<◌, length};
ghost use Rattle.field.specs.Map.{top_bit};
ghost use Rattle.field.specs.Card.{card_of};
ghost use Rattle.checkpoint.specs.Volume.{PlacesIn};
ghost use Rattle.checkpoint.specs.OpenImage.{card_in};
ghost use Rattle.sit.specs.Entry.{valid_count, ones_below};
ghost use Rattle.sit.specs.Table.{sit_journal_of, copy_address, sit_map_in, in_table, sit_entry};
ghost use Rattle.sit.specs.Opening.{opened_with_sit};
ghost use Rattle.sit.specs.SegmentTable.{opening_of, IsOf};

use answer::Refusal;
use checkpoint::Volume;

mod segment_table;

pub use segment_table::SegmentTable;

// How many blocks of its segment an entry counts as valid. The word's upper bits are the segment's type.
#[tactic(auto, unfolding(crate::specs::Entry::valid_count))]
pub fn valid_count(entry: &[u8]) -> u32
    requires { 2 ≤ length entry.now }
    ensures { result ≡ valid_count entry.now }
{
    u32::from(field::get16(entry, 0) % 1024)
}

// The ones among the 512 bits of a map, eight bytes a step.
#[tactic(auto, using(crate::proofs::Counting::ones_most, crate::proofs::Counting::ones_word), unfolding(crate::specs::Entry::ones_below))]
pub fn ones(map: &[u8]) -> u32
    requires { 64 ≤ length map.now }
    ensures { (result ≡ ones_below 512 map.now) × (result ≤ 512) }
{
    let mut sum = 0;
    for i in 0..8 {
        sum += field::get64(map, 8 * i).count_ones();
    }
    sum
}

// The SIT journal, from its start to the end of its block.
#[tactic(auto, using(field::proofs::Blocks::length_of_block))]
pub fn journal_of(image: &[u8], v: Volume) -> &[u8]
    requires { PlacesIn (card_of image.now).blocks v }
    ensures { result.now ≡ sit_journal_of (card_of image.now) v }
{
    if checkpoint::flag_set(v.flags, checkpoint::COMPACT) {
        let compact = field::block_at(image, v.journal_block);
        return &compact[507..];
    }
    let cold = field::block_at(image, v.journal_block + 2);
    &cold[3584..]
}

// The second copies follow all of the first.
fn copy_address(a: superblock::Areas, b: u32, bit: u8) -> u32
    requires { (a.nat ≡ a.sit + 512 * a.sit_segments) × (b < 256 * a.sit_segments) }
    ensures { result ≡ copy_address a b bit }
{
    if bit == 1 {
        a.sit + b + 256 * a.sit_segments
    } else {
        a.sit + b
    }
}

// The address of the copy of table block b that is in use, by the map in the pack's first block.
pub fn table_address(first: &[u8], a: superblock::Areas, b: u32) -> u32
    requires first_len { (length first.now ≡ 4096) × (192 + 32 * a.sit_segments ≤ 4092) }
    requires nat_value { (a.nat ≡ a.sit + 512 * a.sit_segments) × (b < 256 * a.sit_segments) }
    ensures { result ≡ copy_address a b (top_bit (sit_map_in first.now) b) }
{
    let map = &first[192..];
    let bit = field::top_bit(map, b as usize);
    copy_address(a, b, bit)
}

impl<'a> SegmentTable<'a> {
    // A main segment's entry in the table.
    fn entry_in_table(self, segment: u32) -> &'a [u8]
        requires { segment < self.card.volume.areas.main_segments }
        ensures { result.now ≡ in_table (card_in self.entry.card) self.entry.card.volume segment }
    {
        let image = self.card.image;
        let v = self.card.volume;
        let address = table_address(field::block_at(image, v.pack), v.areas, segment / 55);
        let block = field::block_at(image, address);
        let at = 74 * (segment % 55) as usize;
        &block[at..at + 74]
    }

    // A main segment's entry: what the journal holds decides; only otherwise is the table read.
    #[tactic(auto, using(crate::proofs::Inside::journal_holds, crate::proofs::Inside::journaled_inside), unfolding(crate::specs::Table::sit_entry))]
    pub fn entry_of(self, segment: u32) -> &'a [u8]
        requires { segment < self.card.volume.areas.main_segments }
        ensures { result.now ≡ sit_entry (card_in self.entry.card) self.entry.card.volume segment }
    {
        let journal = journal_of(self.card.image, self.card.volume);
        match journal::find_entry(journal, 78, segment) {
            Some(at) => &journal[at + 4..at + 78],
            None => self.entry_in_table(segment),
        }
    }
}

// Opens an image for a call that reads SIT entries.
#[tactic(auto, using(crate::proofs::Openings::ways_of_opening), unfolding(crate::specs::Opening::sit_journal_readable))]
pub fn open(image: &[u8]) -> Result<SegmentTable<'_>, Refusal>
    ensures opening { opening_of result ≡ opened_with_sit image.now }
    ensures same_image { IsOf image.now result }
{
    let card = checkpoint::open(image)?;
    if !journal::count_within(journal_of(card.image, card.volume), 6) {
        return Err(Refusal::Unreadable);
    }
    Ok(SegmentTable { card })
}
