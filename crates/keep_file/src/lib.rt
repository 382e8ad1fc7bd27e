// Keep files: which bytes are one, and what stands where in it. What each means is in specs/: Keep, Layout, Reading, File.
#![tactic(auto)]

ghost use Rattle.std.specs.Prelude.{◌≡◌, ◌+◌, ◌*◌, ◌≤◌, ◌<◌, length};
ghost use Rattle.nat.specs.Table.{answer_in};
ghost use Rattle.compare.specs.Column.{bounds_in};
ghost use Rattle.keep_file.specs.Layout.{file_end};
ghost use Rattle.keep_file.specs.Reading.{answer_at, is_answer, are_answers, measured, lists_readable};
ghost use Rattle.keep_file.specs.Reading.{keep_in, read_keep, fields_of, fields_read};
ghost use Rattle.keep_file.specs.File.{NodesAt, BlocksAt, KeepIn};

use compare::{Bounds, Column};

mod file;

pub use file::{KeepFile, Measured};

// A keep file's numbers, as they cross to C.
#[repr(C)]
#[derive(Clone, Copy, Default)]
pub struct Fields {
    pub answer: u32,
    pub path_len: u32,
    pub index: u32,
    pub pull_answer: u32,
    pub byte_count: u32,
    pub main_start: u32,
    pub main_end: u32,
    pub node_count: u32,
    pub block_count: u32,
    pub path_at: u32,
    pub block_at: u32,
    pub nodes_at: u32,
    pub blocks_at: u32,
    pub length: u32,
}

// How long a file is, by its first three numbers. No sum wraps.
pub fn file_end(path: usize, nodes: usize, blocks: usize) -> usize
    requires { (path < 4294967296) × (nodes < 4294967296) × (blocks < 4294967296) }
    ensures { result ≡ file_end path nodes blocks }
{
    path + 4140 + 16 * nodes + 4100 * blocks
}

// ---- a node's table answer

pub fn answer_at(file: &[u8], at: usize) -> Option<nat::Entry>
    requires { at + 12 ≤ length file.now }
    ensures { answer_in result ≡ answer_at file.now at }
{
    if field::get32(file, at) == 0 {
        Some(nat::Entry {
            inode: field::get32(file, at + 4),
            address: field::get32(file, at + 8),
        })
    } else {
        None
    }
}

fn is_answer(file: &[u8], at: usize) -> bool
    requires { at + 12 ≤ length file.now }
    ensures { result ≡ is_answer file.now at }
{
    let kind = field::get32(file, at);
    (kind == 0)
        | ((kind == 9) & (field::get32(file, at + 4) == 0) & (field::get32(file, at + 8) == 0))
}

fn are_answers(file: &[u8], start: usize, count: usize) -> bool
    requires { start + 16 * count ≤ length file.now }
    ensures { result ≡ are_answers file.now start count }
{
    for i in 0..count {
        if !is_answer(file, start + 16 * i + 4) {
            return false;
        }
    }
    true
}

// ---- the file

// Whether its offsets and its length are what its first three numbers give.
fn is_measured(file: &[u8]) -> bool
    ensures { result ≡ measured file.now }
{
    if file.len() < 24 {
        return false;
    }
    let path = field::get32(file, 0) as usize;
    let nodes = field::get32(file, 4) as usize;
    let blocks = field::get32(file, 8) as usize;
    let nodes_at = path + 4140;
    let blocks_at = nodes_at + 16 * nodes;
    let end = file_end(path, nodes, blocks);
    (field::get32(file, 12) as usize == nodes_at)
        & (field::get32(file, 16) as usize == blocks_at)
        & (field::get32(file, 20) as usize == end)
        & (file.len() == end)
}

impl<'a> Measured<'a> {
    // The listed nodes, each with its table answer.
    #[tactic(auto, using(crate::proofs::Lengths::inside))]
    pub fn nodes(self) -> Column<'a>
        ensures { NodesAt self.entry.bytes.now result }
    {
        Column {
            bytes: self.bytes,
            start: field::get32(self.bytes, 12) as usize,
            width: 16,
            count: field::get32(self.bytes, 4) as usize,
        }
    }

    // The listed blocks, each with its bytes.
    #[tactic(auto, using(crate::proofs::Lengths::inside))]
    pub fn blocks(self) -> Column<'a>
        ensures { BlocksAt self.entry.bytes.now result }
    {
        Column {
            bytes: self.bytes,
            start: field::get32(self.bytes, 16) as usize,
            width: 4100,
            count: field::get32(self.bytes, 8) as usize,
        }
    }

    #[tactic(auto, using(crate::proofs::Lengths::inside))]
    pub fn bounds(self) -> Bounds
        ensures { bounds_in result ≡ (keep_in self.entry.bytes.now).bounds }
    {
        let path = field::get32(self.bytes, 0) as usize;
        Bounds {
            start: field::get32(self.bytes, path + 4132),
            end: field::get32(self.bytes, path + 4136),
        }
    }

    // Whether some node is listed, both lists rise, each node has a table answer, and each block lies in the bounds.
    fn lists_readable(self) -> bool
        ensures { result ≡ lists_readable self.entry.bytes.now }
    {
        let nodes = self.nodes();
        let blocks = self.blocks();
        (1 <= nodes.count)
            & nodes.is_rising()
            & are_answers(self.bytes, nodes.start, nodes.count)
            & blocks.is_rising()
            & blocks.all_in(self.bounds())
    }

    // What the file says.
    #[tactic(auto, using(crate::proofs::Lengths::inside))]
    fn fields(self) -> Fields
        ensures { result ≡ fields_of (keep_in self.entry.bytes.now) }
    {
        let file = self.bytes;
        let path = field::get32(file, 0);
        let at = path as usize;
        let nodes_at = field::get32(file, 12);
        Fields {
            answer: answer::DATA,
            path_len: path,
            index: field::get32(file, at + 24),
            pull_answer: field::get32(file, at + 28),
            byte_count: field::get32(file, at + 32),
            main_start: field::get32(file, at + 4132),
            main_end: field::get32(file, at + 4136),
            node_count: field::get32(file, 4),
            block_count: field::get32(file, 8),
            path_at: 24,
            // the block's bytes and the bounds lie between
            block_at: nodes_at - 4104,
            nodes_at,
            blocks_at: field::get32(file, 16),
            length: field::get32(file, 20),
        }
    }
}

// The keep file, if the bytes are one. Nothing is read past their end, whatever they say.
pub fn keep_file(bytes: &[u8]) -> Option<KeepFile<'_>>
    ensures { KeepIn bytes.now result }
{
    if !is_measured(bytes) {
        return None;
    }
    let parts = Measured { bytes };
    if parts.lists_readable() {
        Some(KeepFile { parts })
    } else {
        None
    }
}

// The fields of a keep file, or 18.
pub fn read(file: &[u8]) -> Fields
    ensures { result ≡ fields_read (read_keep file.now) }
{
    match keep_file(file) {
        Some(kept) => kept.parts.fields(),
        None => Fields {
            answer: answer::BAD_KEEP_FILE,
            ..Fields::default()
        },
    }
}
