// The blocks of a file from an index on, put into a buffer one behind the other. The file's inode is walked to once, and a leaf is kept as
// long as it has addresses left. What that means is in specs/: Standing, Walks.
#![tactic(auto)]

ghost use Rattle.std.specs.Prelude.{◌≡◌, ◌+◌, ◌*◌, ◌<◌, ◌≤◌, length};
ghost use Rattle.checkpoint.specs.OpenImage.{card_in};
ghost use Rattle.walk.specs.Walk.{Fits};
ghost use Rattle.walk.specs.Lent.{view_in, lent, SameLent};
ghost use Rattle.node.specs.Node.{bounds_of};
ghost use Rattle.pull.specs.Walk.{block_of, InBlock};
ghost use Rattle.pull.specs.Pull.{content_bytes};
ghost use Rattle.file_run.specs.Standing.{ended, FilledAs};
ghost use Rattle.file_run.specs.Walks.{file_blocks_walk, file_run_walk, put_at, RoomFor, NoneStand};

use answer::Stop;
use checkpoint::OpenImage;
use pull::{FileBlock, OpenFile};
use walk::SeenLists;

// Blocks of a file one behind the other in lent bytes: how many stand, and the byte count of the last of them.
// The room for a run is required, and no ghost field: how many blocks are wanted is the call's, not the buffer's.
#[derive(Drop)]
pub struct BlockBuffer<'a> {
    pub bytes: &'a mut [u8],
    pub count: u32,
    pub last: u32,
}

impl BlockBuffer<'_> {
    // One more block, behind those that stand.
    fn push(&mut self, card: OpenImage, block: FileBlock)
        requires in_block { InBlock (card_in card) block }
        requires few { self.old.count < 512 }
        requires room { 4096 * (self.old.count + 1) ≤ length self.old.bytes.now }
        ensures same_bytes { self.new.bytes.ghost_name ≡ self.old.bytes.ghost_name }
        ensures same_length { length self.new.bytes.now ≡ length self.old.bytes.now }
        ensures count { self.new.count ≡ self.old.count + 1 }
        ensures last { self.new.last ≡ (block_of (card_in card.entry) block).count }
        ensures wrote { let b = block_of (card_in card.entry) block in
            self.new.bytes.now ≡ put_at (4096 * self.old.count) (content_bytes b.count b.content) self.old.bytes.now }
    {
        let at = 4096 * (self.count as usize);
        let end = at + 4096;
        block.put_into(card.image, &mut self.bytes[at..end]);
        self.count += 1;
        self.last = block.bytes as u32;
    }
}

// The blocks of a file from an index on.
fn fill(
    file: OpenFile,
    seen: &mut SeenLists,
    index: u32,
    wanted: u32,
    buffer: &mut BlockBuffer,
) -> Result<(), Stop>
    requires fits { Fits (view_in file.file.card) (file_blocks_walk file.file wanted index) (lent seen.old) }
    requires room_for { RoomFor wanted buffer.old.bytes.now }
    requires none_stand { NoneStand buffer.old }
    ensures filled { FilledAs (view_in file.entry.file.card) (file_blocks_walk file.entry.file wanted index)
        (lent seen.old) (ended result) buffer.new.count buffer.new.last
        (lent seen.new) buffer.old.bytes.now buffer.new.bytes.now }
    ensures same { SameLent seen.old seen.new }
    ensures same_bytes { buffer.new.bytes.ghost_name ≡ buffer.old.bytes.ghost_name }
{
    let mut kept = node::no_leaf();
    for k in 0..wanted {
        let block = file.block(seen, index + k, &mut kept)?;
        buffer.push(file.file.card, block);
    }
    Ok(())
}

// The blocks of the file of an inode number. What the buffer says to hold already is forgotten.
pub fn fill_of_file(
    card: OpenImage,
    seen: &mut SeenLists,
    ino: u32,
    index: u32,
    wanted: u32,
    buffer: &mut BlockBuffer,
) -> Result<(), Stop>
    requires fits { Fits (view_in card) (file_run_walk (bounds_of card.volume) wanted index ino) (lent seen.old) }
    requires room_for { RoomFor wanted buffer.old.bytes.now }
    ensures filled { FilledAs (view_in card.entry) (file_run_walk (bounds_of card.entry.volume) wanted index ino)
        (lent seen.old) (ended result) buffer.new.count buffer.new.last
        (lent seen.new) buffer.old.bytes.now buffer.new.bytes.now }
    ensures same { SameLent seen.old seen.new }
    ensures same_bytes { buffer.new.bytes.ghost_name ≡ buffer.old.bytes.ghost_name }
{
    buffer.count = 0;
    buffer.last = 0;
    let at = node::node_step(card, seen, ino, ino, 0)?;
    let file = pull::open_file(card, ino, at)?;
    fill(file, seen, index, wanted, buffer)
}
