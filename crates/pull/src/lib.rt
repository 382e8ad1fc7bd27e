// Pull: one block of the file that a path leads to, with the lists of what the answer rested on.
// What each means is in specs/: OpenFile, Walk, Pull.
#![tactic(auto)]

ghost use Rattle.std.specs.Prelude.{◌≡◌, true, ◌&&◌, ◌+◌, ◌/◌, ◌≤◌, ◌<◌, eqb, leb, length, IsOk, IfOk};
ghost use Rattle.field.specs.Card.{card_of};
ghost use Rattle.checkpoint.specs.OpenImage.{card_in};
ghost use Rattle.walk.specs.Walk.{Walked, Fits};
ghost use Rattle.walk.specs.Lent.{view_in, lent, SameLent};
ghost use Rattle.node.specs.Node.{bounds_of};
ghost use Rattle.node.specs.Leaf.{Keeps};
ghost use Rattle.path.specs.Path.{names_most, part_count, is_path};
ghost use Rattle.pull.specs.Walk.{file_walk, pull_walk, block_of, block_found, block_ended, InBlock, inode_file_walk, FileOpened};
ghost use Rattle.pull.specs.Pull.{nodes_most, blocks_most, lending, result_in, lent_in_shape};
ghost use Rattle.pull.specs.Pull.{content_bytes, answer_of, count_of, buffer_after, written, pull_run, pulled};

use answer::{Refusal, Stop};
use checkpoint::OpenImage;
use list::NumberList;
use node::{File, Leaf};
use walk::SeenLists;

mod file;

pub use file::OpenFile;

// A pull's numbers, as they cross to C.
#[repr(C)]
#[derive(Clone, Copy, Default)]
pub struct Pulled {
    pub answer: u32,
    pub byte_count: u32,
    pub node_count: u32,
    pub block_count: u32,
}

// A block of a file: its address, unless it is a hole, where in it the file's bytes start, and how many they are.
// That they lie on the card is said by clauses: a ghost field would need the card in each block, and is no plainer.
#[derive(Clone, Copy)]
pub struct FileBlock {
    pub data: Option<u32>,
    pub start: usize,
    pub bytes: usize,
}

// The file of an inode number, whose inode is the block `at`.
pub fn open_file(card: OpenImage<'_>, ino: u32, at: u32) -> Result<OpenFile<'_>, Stop>
    requires { at < (card_in card).blocks }
    ensures { FileOpened card.entry ino at result }
{
    let inode = inode::inode_of(field::block_at(card.image, at));
    if !inode::is_regular(inode) {
        return Err(Stop::KindNotRead);
    }
    let file = File {
        card,
        ino,
        inode: at,
        addresses: inode::addresses_in(inode),
    };
    Ok(OpenFile { file, inode })
}

impl OpenFile<'_> {
    // Block `index` of the file. The kept leaf is asked first, and what is kept then is for the next index.
    // Inlined, since a run's loop else has each block through memory.
    #[inline(always)]
    pub fn block(self, seen: &mut SeenLists, index: u32, kept: &mut Leaf) -> Result<FileBlock, Stop>
        requires fits { Fits (view_in self.file.card) (inode_file_walk self.file index) (lent seen.old) }
        requires keeps { Keeps self.file index kept.old (lent seen.old) }
        ensures walked { Walked (view_in self.entry.file.card) (inode_file_walk self.entry.file index)
            (lent seen.old) (block_found (card_in self.entry.file.card) result) (lent seen.new) }
        ensures same { SameLent seen.old seen.new }
        ensures block_in { IfOk result (InBlock (card_in self.entry.file.card)) }
        ensures near { IsOk result → index < 2147483648 }
        ensures keeps { Keeps self.entry.file (index + 1) kept.new (lent seen.new) }
    {
        if inode::is_past(self.inode, index) {
            *kept = node::no_leaf();
            return Err(Stop::PastEnd);
        }
        let bytes = inode::count_in(self.inode, index);
        if inode::has_inline_data(self.inode) {
            *kept = node::no_leaf();
            return Ok(FileBlock {
                data: Some(self.file.inode),
                start: inode::INLINE_START,
                bytes,
            });
        }
        let data = self.file.next_block(seen, index, kept)?;
        Ok(FileBlock {
            data,
            start: 0,
            bytes,
        })
    }
}

impl FileBlock {
    // The file's bytes of the block, and zeros behind them.
    pub fn put_into(self, image: &[u8], buffer: &mut [u8])
        requires in_block { InBlock (card_of image.now) self }
        requires buffer_len { length buffer.old ≡ 4096 }
        ensures { let b = block_of (card_of image.now) self in buffer.new ≡ content_bytes b.count b.content }
    {
        match self.data {
            Some(at) => buffer::put_block(
                field::block_at(image, at),
                self.start,
                self.bytes,
                buffer,
            ),
            None => buffer::clear(buffer),
        }
    }
}

// Block `index` of the file of an inode number.
fn block_of_file(
    card: OpenImage,
    seen: &mut SeenLists,
    ino: u32,
    index: u32,
) -> Result<FileBlock, Stop>
    requires fits { Fits (view_in card) (file_walk (bounds_of card.volume) index ino) (lent seen.old) }
    ensures walked { Walked (view_in card.entry) (file_walk (bounds_of card.entry.volume) index ino)
        (lent seen.old) (block_found (card_in card.entry) result) (lent seen.new) }
    ensures same { SameLent seen.old seen.new }
    ensures block_in { IfOk result (InBlock (card_in card.entry)) }
{
    let at = node::node_step(card, seen, ino, ino, 0)?;
    let file = open_file(card, ino, at)?;
    let mut kept = node::no_leaf();
    file.block(seen, index, &mut kept)
}

// The walk of a pull.
fn walk_to(
    card: OpenImage,
    seen: &mut SeenLists,
    path: &[u8],
    index: u32,
) -> Result<FileBlock, Stop>
    requires fits { Fits (view_in card) (pull_walk (bounds_of card.volume) path.now index) (lent seen.old) }
    ensures walked { Walked (view_in card.entry) (pull_walk (bounds_of card.entry.volume) path.now index)
        (lent seen.old) (block_found (card_in card.entry) result) (lent seen.new) }
    ensures same { SameLent seen.old seen.new }
    ensures block_in { IfOk result (InBlock (card_in card.entry)) }
{
    let ino = path_lookup::find_path(card, seen, path)?;
    block_of_file(card, seen, ino, index)
}

// An answer with its byte count.
#[derive(Clone, Copy)]
pub struct Delivered {
    pub answer: u32,
    pub count: u32,
}

// The block buffer filled, unless the walk was stopped, with whatever number.
pub fn deliver(image: &[u8], found: Result<FileBlock, u32>, buffer: &mut [u8]) -> Delivered
    requires block_in { IfOk found (InBlock (card_of image.now)) }
    requires buffer_len { length buffer.old ≡ 4096 }
    ensures { (result.answer ≡ answer_of (block_ended (card_of image.now) found))
        × (result.count ≡ count_of (block_ended (card_of image.now) found))
        × (buffer.new ≡ buffer_after (block_ended (card_of image.now) found) buffer.old) }
{
    match found {
        Ok(block) => {
            block.put_into(image, buffer);
            Delivered {
                answer: match block.data {
                    Some(_) => answer::DATA,
                    None => answer::HOLE,
                },
                count: block.bytes as u32,
            }
        }
        Err(answer) => Delivered { answer, count: 0 },
    }
}

pub fn refused_pull(answer: u32) -> Pulled
    ensures { result ≡ record { answer = answer; byte_count = 0; node_count = 0; block_count = 0 } }
{
    Pulled {
        answer,
        ..Pulled::default()
    }
}

// Whether the lent memory is of the lengths that a pull of k names takes.
pub fn lent_in_shape(k: usize, block: usize, nodes: usize, blocks: usize) -> bool
    requires { k ≤ names_most }
    ensures { result ≡ (eqb block 4096 && leb (nodes_most k) (nodes / 4) && leb (blocks_most k) (blocks / 4)) }
{
    (block == 4096) & (175 * k + 4 <= nodes / 4) & (233 * k + 5 <= blocks / 4)
}

// A pull from an opened card.
pub fn pull_opened(
    card: OpenImage,
    path: &[u8],
    index: u32,
    block: &mut [u8],
    nodes: &mut [u8],
    blocks: &mut [u8],
) -> Pulled
    requires path_value { is_path path.now ≡ true }
    requires blocks_value { lent_in_shape (part_count path.now) (lending block.old nodes.old blocks.old) ≡ true }
    ensures { result_in result (lending block.new nodes.new blocks.new)
        ≡ written (pull_run (card_in card.entry) card.entry.volume path.now index)
        (lending block.old nodes.old blocks.old) }
{
    let mut nodes = NumberList {
        bytes: nodes,
        count: 0,
    };
    let mut blocks = NumberList {
        bytes: blocks,
        count: 0,
    };
    let mut seen = SeenLists {
        nodes: &mut nodes,
        blocks: &mut blocks,
    };
    let found = walk_to(card, &mut seen, path, index).map_err(|stop| stop.number());
    let done = deliver(card.image, found, block);
    Pulled {
        answer: done.answer,
        byte_count: done.count,
        node_count: seen.nodes.count as u32,
        block_count: seen.blocks.count as u32,
    }
}

// One block of the file that a path leads to. The call's shape is tested first, then the image is opened, then walked.
pub fn pull(
    image: &[u8],
    path: &[u8],
    index: u32,
    block: &mut [u8],
    nodes: &mut [u8],
    blocks: &mut [u8],
) -> Pulled
    ensures { result_in result (lending block.new nodes.new blocks.new)
        ≡ pulled image.now path.now index
        (lending block.old nodes.old blocks.old) }
{
    let k = path::name_count(path);
    if !(superblock::in_shape(image.len())
        & (k != 0)
        & lent_in_shape(k, block.len(), nodes.len(), blocks.len()))
    {
        return refused_pull(Refusal::OutOfShape.number());
    }
    match checkpoint::open(image) {
        Ok(card) => pull_opened(card, path, index, block, nodes, blocks),
        Err(refusal) => refused_pull(refusal.number()),
    }
}
