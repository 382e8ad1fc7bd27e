// The calls that the rig's host makes. Each takes numbers and lent bytes, asks nothing of them, and answers with a struct of
// 32-bit numbers. crates/harptimber_c exports them to C under the same names; host/include/harptimber.h declares them there.
#![tactic(auto)]

ghost use Rattle.std.specs.Prelude.{◌≡◌};
ghost use Rattle.name_hash.specs.Answer.{hashed};
ghost use Rattle.nat.specs.Table.{answer_in};
ghost use Rattle.nat.specs.Lookup.{table_numbers, lookup_of};
ghost use Rattle.pull.specs.Pull.{lending, result_in, pulled};
ghost use Rattle.pull_run.specs.Run.{run_result, run_pulled};
ghost use Rattle.reader.specs.Reading.{Started, Stepped};
ghost use Rattle.reader_result.specs.Result.{read_out};
ghost use Rattle.list.specs.Lists.{listing};
ghost use Rattle.compare.specs.Compare.{compared};
ghost use Rattle.segment_report.specs.Report.{reported, segment_report};
ghost use Rattle.keep.specs.Writing.{writing, keep_written};
ghost use Rattle.keep_file.specs.Reading.{fields_read, read_keep};
ghost use Rattle.keep_compare.specs.Compare.{keep_compared};
ghost use Rattle.harptimber.specs.NameHash.{name_hash};
ghost use Rattle.harptimber.specs.FilePlace.{crossing, placed, file_place};

use answer::{Refusal, Stop};

#[repr(C)]
#[derive(Clone, Copy)]
pub struct NameHash {
    pub answer: u32,
    pub hash: u32,
}

pub fn harptimber_name_hash(name: &[u8]) -> NameHash
    ensures { result ≡ name_hash (hashed name.now) }
{
    match name_hash::hash_answer(name) {
        Some(hash) => NameHash {
            answer: answer::DATA,
            hash,
        },
        None => NameHash {
            answer: Refusal::OutOfShape.number(),
            hash: 0,
        },
    }
}

#[repr(C)]
#[derive(Clone, Copy)]
pub struct FilePlace {
    pub answer: u32,
    pub steps: u32,
    pub place0: u32,
    pub slot0: u32,
    pub place1: u32,
    pub slot1: u32,
    pub place2: u32,
    pub slot2: u32,
    pub place3: u32,
    pub slot3: u32,
}

fn answer_with(answer: u32, way: place::Way) -> FilePlace
    ensures { result ≡ crossing answer way }
{
    let nodes = way.steps;
    FilePlace {
        answer,
        steps: way.count,
        place0: nodes[0].number,
        slot0: nodes[0].slot,
        place1: nodes[1].number,
        slot1: nodes[1].slot,
        place2: nodes[2].number,
        slot2: nodes[2].slot,
        place3: nodes[3].number,
        slot3: nodes[3].slot,
    }
}

fn placed_by(way: place::Way) -> FilePlace
    ensures { result ≡ placed way }
{
    if way.count == 0 {
        answer_with(Stop::PastEnd.number(), way)
    } else {
        answer_with(answer::DATA, way)
    }
}

pub fn harptimber_file_place(addresses: u32, index: u32) -> FilePlace
    ensures { result ≡ file_place addresses index }
{
    if (addresses == 873) | (addresses == 923) {
        placed_by(place::find_way(addresses, index))
    } else {
        answer_with(Refusal::OutOfShape.number(), place::no_way())
    }
}

fn table_numbers(said: Option<nat::Entry>) -> nat::Lookup
    ensures { result ≡ table_numbers (answer_in said) }
{
    match said {
        Some(entry) => nat::Lookup {
            answer: answer::DATA,
            inode: entry.inode,
            address: entry.address,
        },
        None => nat::Lookup {
            answer: Stop::NoNode.number(),
            inode: 0,
            address: 0,
        },
    }
}

pub fn harptimber_node_lookup(image: &[u8], number: u32) -> nat::Lookup
    ensures { result ≡ lookup_of image.now number }
{
    match checkpoint::open(image) {
        Ok(card) => table_numbers(nat::table_answer(card, number)),
        Err(refusal) => nat::Lookup {
            answer: refusal.number(),
            inode: 0,
            address: 0,
        },
    }
}

pub fn harptimber_pull(
    image: &[u8],
    path: &[u8],
    index: u32,
    block: &mut [u8],
    nodes: &mut [u8],
    blocks: &mut [u8],
) -> pull::Pulled
    ensures { result_in result (lending block.new nodes.new blocks.new)
        ≡ pulled image.now path.now index (lending block.old nodes.old blocks.old) }
{
    pull::pull(image, path, index, block, nodes, blocks)
}

pub fn harptimber_pull_run(
    image: &[u8],
    path: &[u8],
    index: u32,
    wanted: u32,
    buffer: &mut [u8],
    nodes: &mut [u8],
    blocks: &mut [u8],
) -> pull_run::Run
    ensures { run_result result (lending buffer.new nodes.new blocks.new)
        ≡ run_pulled image.now path.now index wanted
        (lending buffer.old nodes.old blocks.old) }
{
    pull_run::pull_run(image, path, index, wanted, buffer, nodes, blocks)
}

pub fn harptimber_reader_start(card_blocks: u32, path: &[u8], index: u32) -> reader::Reader
    ensures { Started card_blocks path.now index result }
{
    reader::start(card_blocks, path, index)
}

// Inlined as the step is, so that the state isn't copied once more.
#[inline(always)]
pub fn harptimber_reader_step(reader: reader::Reader, bytes: &[u8]) -> reader::Reader
    ensures { Stepped reader bytes.now result }
{
    reader.step(bytes)
}

pub fn harptimber_reader_result(
    reader: reader::Reader,
    block: &mut [u8],
    nodes: &mut [u8],
    blocks: &mut [u8],
) -> pull::Pulled
    ensures { result_in result (lending block.new nodes.new blocks.new)
        ≡ read_out reader (lending block.old nodes.old blocks.old) }
{
    reader_result::read_out(reader, block, nodes, blocks)
}

pub fn harptimber_compare(
    kept: &[u8],
    fresh: &[u8],
    nodes: &[u8],
    node_count: u32,
    blocks: &[u8],
    block_count: u32,
) -> compare::Compared
    ensures { result
        ≡ compared kept.now fresh.now (listing nodes.now node_count)
        (listing blocks.now block_count) }
{
    compare::compare(kept, fresh, nodes, node_count, blocks, block_count)
}

pub fn harptimber_segment_report(image: &[u8], list: &mut [u8]) -> segment_report::Segments
    ensures { reported result list.new ≡ segment_report image.now list.old }
{
    segment_report::report(image, list)
}

pub fn harptimber_keep(image: &[u8], path: &[u8], index: u32, room: &mut [u8]) -> keep::Written
    ensures { writing result room.new ≡ keep_written image.now path.now index room.old }
{
    keep::keep(image, path, index, room)
}

pub fn harptimber_keep_read(file: &[u8]) -> keep_file::Fields
    ensures { result ≡ fields_read (read_keep file.now) }
{
    keep_file::read(file)
}

pub fn harptimber_keep_compare(file: &[u8], fresh: &[u8]) -> compare::Compared
    ensures { result ≡ keep_compared file.now fresh.now }
{
    keep_compare::keep_compare(file, fresh)
}
