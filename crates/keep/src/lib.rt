// The writer of keep files: a pull is made, and what it answered and rested on is laid out.
// What each means is in specs/: Writing, Parts.
#![tactic(auto)]

ghost use Rattle.std.specs.Prelude.{◌≡◌, true, [], ◌∷◌, ◌+◌, ◌*◌, ◌≤◌, ◌<◌, length};
ghost use Rattle.field.specs.Card.{card_of};
ghost use Rattle.checkpoint.specs.OpenImage.{card_in};
ghost use Rattle.nat.specs.Table.{answer_in};
ghost use Rattle.path.specs.Path.{is_path};
ghost use Rattle.list.specs.Lists.{AllOf, bytes_of, listing, entries};
ghost use Rattle.buffer.specs.Laid.{laid_at};
ghost use Rattle.keep_file.specs.Layout.{file_end, header, answer_bytes, layout};
ghost use Rattle.keep.specs.Writing.{writing, file_written, keep_of, keep_written};
ghost use Rattle.keep.specs.Parts.{node_entry, block_entry, nodes_of, blocks_of, front_of, left_by, kept_from, end_found, CanKeep};

use answer::{Refusal, Stop};
use checkpoint::OpenImage;

// The writer's numbers, as they cross to C.
#[repr(C)]
#[derive(Clone, Copy)]
pub struct Written {
    pub answer: u32,
    pub length: u32,
}

// A pull that is to be kept: the card, what was asked of it, what it answered, and the slices that it left.
#[derive(Clone, Copy)]
struct KeptPull<'a> {
    card: OpenImage<'a>,
    path: &'a [u8],
    index: u32,
    pulled: pull::Pulled,
    block: &'a [u8],
    nodes: &'a [u8],
    blocks: &'a [u8],
}

// ---- numbers and entries

fn put_three(room: &mut [u8], at: usize, a: u32, b: u32, c: u32)
    requires { at + 12 ≤ length room.old }
    ensures { room.new ≡ laid_at at (bytes_of (a ∷ b ∷ c ∷ [])) room.old }
{
    buffer::put_number(room, at, a);
    buffer::put_number(room, at + 4, b);
    buffer::put_number(room, at + 8, c);
}

// The header, by its first three numbers.
fn put_header(room: &mut [u8], path: u32, nodes: u32, blocks: u32)
    requires { (24 ≤ length room.old) × (file_end path nodes blocks < 4294967296) }
    ensures { room.new ≡ laid_at 0 (header path nodes blocks) room.old }
{
    let nodes_at = path + 4140;
    let blocks_at = nodes_at + 16 * nodes;
    put_three(room, 0, path, nodes, blocks);
    put_three(room, 12, nodes_at, blocks_at, blocks_at + 4100 * blocks);
}

fn put_answer(room: &mut [u8], at: usize, said: Option<nat::Entry>)
    requires { at + 12 ≤ length room.old }
    ensures { room.new ≡ laid_at at (answer_bytes (answer_in said)) room.old }
{
    match said {
        Some(entry) => put_three(room, at, answer::DATA, entry.inode, entry.address),
        None => put_three(room, at, Stop::NoNode.number(), 0, 0),
    }
}

fn put_node(card: OpenImage, number: u32, room: &mut [u8], at: usize)
    requires { at + 16 ≤ length room.old }
    ensures { room.new ≡ laid_at at (node_entry (card_in card.entry) card.entry.volume number) room.old }
{
    buffer::put_number(room, at, number);
    put_answer(room, at + 4, nat::table_answer(card, number));
}

fn put_block(image: &[u8], b: u32, room: &mut [u8], at: usize)
    requires b_bound { b < (card_of image.now).blocks }
    requires at_in_bounds { at + 4100 ≤ length room.old }
    ensures { room.new ≡ laid_at at (block_entry (card_of image.now) b) room.old }
{
    buffer::put_number(room, at, b);
    buffer::put_bytes(room, at + 4, field::block_at(image, b));
}

// ---- the lists

// Two loops: one that is handed what lays an entry is no plainer, since what it asks and says of a call that writes would be longer.
fn put_nodes(card: OpenImage, nodes: &[u8], count: u32, room: &mut [u8], at: usize)
    requires { (4 * count ≤ length nodes.now) × (at + 16 * count ≤ length room.old) }
    ensures { room.new
        ≡ laid_at at (nodes_of (card_in card.entry) card.entry.volume (listing nodes.now count)) room.old }
{
    for i in 0..count as usize {
        put_node(card, field::get32(nodes, 4 * i), room, at + 16 * i);
    }
}

// A block's bytes go straight from the image into the room.
fn put_blocks(image: &[u8], blocks: &[u8], count: u32, room: &mut [u8], at: usize)
    requires all_of { AllOf (λ b. b < (card_of image.now).blocks) (entries (listing blocks.now count)) }
    requires count_in_bounds { (4 * count ≤ length blocks.now) × (at + 4100 * count ≤ length room.old) }
    ensures { room.new
        ≡ laid_at at (blocks_of (card_of image.now) (listing blocks.now count)) room.old }
{
    for i in 0..count as usize {
        put_block(image, field::get32(blocks, 4 * i), room, at + 4100 * i);
    }
}

// ---- the file

impl KeptPull<'_> {
    // All that stands before the lists.
    fn put_front(self, room: &mut [u8])
        requires { (length self.block.now ≡ 4096) × (length self.path.now + 4140 ≤ length room.old)
            × (end_found self.path.now (left_by self) < 4294967296) }
        ensures { room.new
            ≡ laid_at 0 (front_of self.entry.card.volume self.entry.path.now self.entry.index self.entry.pulled self.entry.block.now) room.old }
    {
        let p = self.path.len();
        let areas = self.card.volume.areas;
        put_header(
            room,
            p as u32,
            self.pulled.node_count,
            self.pulled.block_count,
        );
        buffer::put_bytes(room, 24, self.path);
        put_three(
            room,
            p + 24,
            self.index,
            self.pulled.answer,
            self.pulled.byte_count,
        );
        buffer::put_bytes(room, p + 36, self.block);
        buffer::put_number(room, p + 4132, areas.main);
        buffer::put_number(room, p + 4136, areas.main_end);
    }

    fn put_file(self, room: &mut [u8])
        requires keepable { CanKeep self }
        requires blocks_in_bounds { end_found self.path.now (left_by self) ≤ length room.old }
        ensures { room.new ≡ laid_at 0 (layout (kept_from self.entry)) room.old }
    {
        let pulled = self.pulled;
        let nodes_at = self.path.len() + 4140;
        let blocks_at = nodes_at + 16 * (pulled.node_count as usize);
        self.put_front(room);
        put_nodes(self.card, self.nodes, pulled.node_count, room, nodes_at);
        put_blocks(
            self.card.image,
            self.blocks,
            pulled.block_count,
            room,
            blocks_at,
        );
    }

    // The file, if the room takes it.
    fn write_file(self, room: &mut [u8]) -> Written
        requires { CanKeep self }
        ensures { writing result room.new ≡ file_written (layout (kept_from self.entry)) room.old }
    {
        let end = keep_file::file_end(
            self.path.len(),
            self.pulled.node_count as usize,
            self.pulled.block_count as usize,
        );
        if room.len() < end {
            return Written {
                answer: answer::NO_ROOM,
                length: 0,
            };
        }
        self.put_file(room);
        Written {
            answer: answer::DATA,
            length: end as u32,
        }
    }
}

// The pull, over lists of the room that eight names need.
fn keep_opened(card: OpenImage, path: &[u8], index: u32, room: &mut [u8]) -> Written
    requires { is_path path.now ≡ true }
    ensures { writing result room.new
        ≡ file_written (layout (keep_of (card_in card.entry) card.entry.volume path.now index)) room.old }
{
    let mut block = [0; 4096];
    let mut nodes = [0; 5616];
    let mut blocks = [0; 7476];
    let pulled = pull::pull_opened(card, path, index, &mut block, &mut nodes, &mut blocks);
    let kept = KeptPull {
        card,
        path,
        index,
        pulled,
        block: &block,
        nodes: &nodes,
        blocks: &blocks,
    };
    kept.write_file(room)
}

// A keep file of a pull. The call's shape is tested first, then the image is opened, then the pull is made.
pub fn keep(image: &[u8], path: &[u8], index: u32, room: &mut [u8]) -> Written
    ensures { writing result room.new ≡ keep_written image.now path.now index room.old }
{
    let k = path::name_count(path);
    if !(superblock::in_shape(image.len()) & (k != 0)) {
        return Written {
            answer: Refusal::OutOfShape.number(),
            length: 0,
        };
    }
    match checkpoint::open(image) {
        Ok(card) => keep_opened(card, path, index, room),
        Err(refusal) => Written {
            answer: refusal.number(),
            length: 0,
        },
    }
}
