// Node lookup: the journal first, then the node address table.
// What each means is in specs/: Entry, Table, Lookup.
#![tactic(auto)]

ghost use Rattle.std.specs.Prelude.{◌≡◌, true, ◌+◌, ◌*◌, ◌%◌, ◌≤◌, ◌<◌, length};
ghost use Rattle.field.specs.Number.{le16};
ghost use Rattle.field.specs.Map.{top_bit};
ghost use Rattle.checkpoint.specs.OpenImage.{card_in};
ghost use Rattle.nat.specs.Entry.{entry_at, in_journal};
ghost use Rattle.nat.specs.Table.{in_range, copy_address, nat_map_in, entry_in, in_table, answered, answer_in, table_answer};

use checkpoint::OpenImage;

// What the journal or the table has for a node number: inode and address as stored.
#[derive(Clone, Copy, Debug, PartialEq, Eq)]
pub struct Entry {
    pub inode: u32,
    pub address: u32,
}

// What node lookup answers, as it crosses to C: the answer's number, then inode and address as stored, which are 0 unless it is 0.
#[repr(C)]
#[derive(Clone, Copy)]
pub struct Lookup {
    pub answer: u32,
    pub inode: u32,
    pub address: u32,
}

// An entry is a version byte, then the inode, then the address, in the journal and in the table.
fn entry_at(bytes: &[u8], at: usize) -> Entry
    requires { at + 9 ≤ length bytes.now }
    ensures { result ≡ entry_at bytes.now at }
{
    Entry {
        inode: field::get32(bytes, at + 1),
        address: field::get32(bytes, at + 5),
    }
}

// What a journal says of a number; it has room for its count and 38 entries.
#[tactic(auto, using(journal::proofs::Searching::found_inside), unfolding(crate::specs::Entry::in_journal))]
pub fn journal_entry(journal: &[u8], number: u32) -> Option<Entry>
    requires { (496 ≤ length journal.now) × (le16 journal.now 0 ≤ 38) }
    ensures { result ≡ in_journal journal.now number }
{
    let at = journal::find_entry(journal, 13, number)?;
    Some(entry_at(journal, at + 4))
}

// Of each pair of copies the second lies a segment behind the first.
fn copy_address(a: superblock::Areas, b: u32, bit: u32) -> u32
    requires ssa_value { (a.ssa ≡ a.nat + 512 * a.nat_segments) × (a.nat_segments % 2 ≡ 0) }
    requires b_bound { (b < 256 * a.nat_segments) × (bit ≤ 1) }
    ensures { result ≡ copy_address a.nat b bit }
{
    a.nat + 2 * b - b % 512 + 512 * bit
}

// The address of the copy of table block b that is in use, by the map in the pack's first block. It takes no OpenImage, since a reader
// that is fed its blocks has none.
#[tactic(auto, using(field::proofs::Maps::top_bit_lem))]
pub fn table_address(first: &[u8], v: checkpoint::Volume, b: u32) -> u32
    requires first_len { (length first.now ≡ 4096) × (v.nat_map + 32 * v.areas.nat_segments ≤ 4092) }
    requires ssa_value { (v.areas.ssa ≡ v.areas.nat + 512 * v.areas.nat_segments) × (v.areas.nat_segments % 2 ≡ 0) }
    requires b_bound { b < 256 * v.areas.nat_segments }
    ensures { result ≡ copy_address v.areas.nat b (top_bit (nat_map_in v first.now) b) }
{
    let map = &first[v.nat_map as usize..];
    let bit = field::top_bit(map, b as usize);
    copy_address(v.areas, b, u32::from(bit))
}

// The entry of a number in its table block.
#[tactic(auto, unfolding(crate::specs::Table::entry_in))]
pub fn table_entry(block: &[u8], number: u32) -> Entry
    requires { length block.now ≡ 4096 }
    ensures { answered result ≡ entry_in block.now number }
{
    entry_at(block, 9 * (number % 455) as usize)
}

// The number's entry in the table on the card.
#[tactic(auto, using(field::proofs::Blocks::length_of_block, crate::proofs::Range::block_in_range))]
fn in_table(card: OpenImage, number: u32) -> Entry
    requires { in_range card.volume number ≡ true }
    ensures { answered result ≡ in_table (card_in card.entry) card.entry.volume number }
{
    let first = field::block_at(card.image, card.volume.pack);
    let address = table_address(first, card.volume, number / 455);
    table_entry(field::block_at(card.image, address), number)
}

#[tactic(auto, unfolding(crate::specs::Table::in_range))]
pub fn in_range(v: checkpoint::Volume, number: u32) -> bool
    ensures { result ≡ in_range v number }
{
    1 <= number && u64::from(number) < 455 * 256 * u64::from(v.areas.nat_segments)
}

// What an opened volume says of a number, if there is such a number. What the journal holds decides; only otherwise is the table read.
#[tactic(auto, using(checkpoint::proofs::Inside::journal_room, checkpoint::proofs::Inside::journal_start), unfolding(crate::specs::Table::table_answer))]
pub fn table_answer(card: OpenImage, number: u32) -> Option<Entry>
    ensures { answer_in result ≡ table_answer (card_in card.entry) card.entry.volume number }
{
    if !in_range(card.volume, number) {
        return None;
    }
    let journal = checkpoint::journal_of(card.image, card.volume);
    match journal_entry(journal, number) {
        Some(held) => Some(held),
        None => Some(in_table(card, number)),
    }
}
