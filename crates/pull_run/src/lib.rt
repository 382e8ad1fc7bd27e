// A run of pulls: the path is looked up once, then block after block is put into the buffer.
// What each means is in specs/: Run, Walk.
#![tactic(auto)]

ghost use Rattle.std.specs.Prelude.{◌≡◌, true, ◌&&◌, ◌*◌, ◌/◌, ◌≤◌, eqb, leb};
ghost use Rattle.checkpoint.specs.OpenImage.{card_in};
ghost use Rattle.walk.specs.Walk.{Fits};
ghost use Rattle.walk.specs.Lent.{view_in, lent, SameLent};
ghost use Rattle.node.specs.Node.{bounds_of};
ghost use Rattle.path.specs.Path.{names_most, part_count, is_path};
ghost use Rattle.pull.specs.Pull.{lending};
ghost use Rattle.file_run.specs.Standing.{ended, FilledAs};
ghost use Rattle.file_run.specs.Walks.{RoomFor, NoneStand};
ghost use Rattle.pull_run.specs.Walk.{run_walk};
ghost use Rattle.pull_run.specs.Run.{wanted_most, run_nodes_most, run_blocks_most, run_in_shape, run_pulls, run_result};
ghost use Rattle.pull_run.specs.Run.{run_written, run_pulled};

use answer::{Refusal, Stop};
use checkpoint::OpenImage;
use file_run::BlockBuffer;
use list::NumberList;
use walk::SeenLists;

// A run's numbers, as they cross to C: how many blocks stand, and the byte count of the last of them, with a refusal too.
#[repr(C)]
#[derive(Clone, Copy, Default)]
pub struct Run {
    pub answer: u32,
    pub count: u32,
    pub byte_count: u32,
    pub node_count: u32,
    pub block_count: u32,
}

// The walk of a run.
fn fill_from_path(
    card: OpenImage,
    seen: &mut SeenLists,
    path: &[u8],
    index: u32,
    wanted: u32,
    buffer: &mut BlockBuffer,
) -> Result<(), Stop>
    requires fits { Fits (view_in card) (run_walk (bounds_of card.volume) path.now wanted index) (lent seen.old) }
    requires room_for { RoomFor wanted buffer.old.bytes.now }
    requires none_stand { NoneStand buffer.old }
    ensures filled { FilledAs (view_in card.entry) (run_walk (bounds_of card.entry.volume) path.now wanted index)
        (lent seen.old) (ended result) buffer.new.count buffer.new.last
        (lent seen.new) buffer.old.bytes.now buffer.new.bytes.now }
    ensures same { SameLent seen.old seen.new }
    ensures same_bytes { buffer.new.bytes.ghost_name ≡ buffer.old.bytes.ghost_name }
{
    let ino = path_lookup::find_path(card, seen, path)?;
    file_run::fill_of_file(card, seen, ino, index, wanted, buffer)
}

fn refused_run(answer: u32) -> Run
    ensures { result ≡ record { answer = answer; count = 0; byte_count = 0; node_count = 0; block_count = 0 } }
{
    Run {
        answer,
        ..Run::default()
    }
}

// Whether so many blocks may be wanted, and the lent memory is of the lengths that this takes with k names.
fn run_in_shape(k: usize, wanted: u32, buffer: usize, nodes: usize, blocks: usize) -> bool
    requires { k ≤ names_most }
    ensures { result ≡ (leb 1 wanted && leb wanted wanted_most && eqb buffer (4096 * wanted)
        && leb (run_nodes_most k) (nodes / 4) && leb (run_blocks_most k) (blocks / 4)) }
{
    (1 <= wanted)
        & (wanted <= 512)
        & (buffer == 4096 * (wanted as usize))
        & (175 * k + 6 <= nodes / 4)
        & (233 * k + 518 <= blocks / 4)
}

// A run from an opened card.
fn run_opened(
    card: OpenImage,
    path: &[u8],
    index: u32,
    wanted: u32,
    buffer: &mut [u8],
    nodes: &mut [u8],
    blocks: &mut [u8],
) -> Run
    requires path_value { is_path path.now ≡ true }
    requires blocks_value { run_in_shape (part_count path.now) wanted (lending buffer.old nodes.old blocks.old) ≡ true }
    ensures { run_result result (lending buffer.new nodes.new blocks.new)
        ≡ run_written (run_pulls (card_in card.entry) card.entry.volume path.now index wanted)
        (lending buffer.old nodes.old blocks.old) }
{
    let mut nodes = NumberList {
        bytes: nodes,
        count: 0,
    };
    let mut blocks = NumberList {
        bytes: blocks,
        count: 0,
    };
    let mut seen = SeenLists {
        nodes: &mut nodes,
        blocks: &mut blocks,
    };
    let mut filled = BlockBuffer {
        bytes: buffer,
        count: 0,
        last: 0,
    };
    let answer = match fill_from_path(card, &mut seen, path, index, wanted, &mut filled) {
        Ok(()) => answer::DATA,
        Err(stop) => stop.number(),
    };
    Run {
        answer,
        count: filled.count,
        byte_count: filled.last,
        node_count: seen.nodes.count as u32,
        block_count: seen.blocks.count as u32,
    }
}

// `wanted` blocks of the file that a path leads to, from an index on. The call's shape is tested first, then the image is opened, then walked.
pub fn pull_run(
    image: &[u8],
    path: &[u8],
    index: u32,
    wanted: u32,
    buffer: &mut [u8],
    nodes: &mut [u8],
    blocks: &mut [u8],
) -> Run
    ensures { run_result result (lending buffer.new nodes.new blocks.new)
        ≡ run_pulled image.now path.now index wanted
        (lending buffer.old nodes.old blocks.old) }
{
    let k = path::name_count(path);
    if !(superblock::in_shape(image.len())
        & (k != 0)
        & run_in_shape(k, wanted, buffer.len(), nodes.len(), blocks.len()))
    {
        return refused_run(Refusal::OutOfShape.number());
    }
    match checkpoint::open(image) {
        Ok(card) => run_opened(card, path, index, wanted, buffer, nodes, blocks),
        Err(refusal) => refused_run(refusal.number()),
    }
}
