// The C boundary: each call of the crate harptimber, exported under its name with its clauses. host/include/harptimber.h declares
// the same for C. An export has no body of its own, so that what is said and shown of the calls is so of the exports.
#![tactic(auto)]

ghost use Rattle.std.specs.Prelude.{◌≡◌};
ghost use Rattle.name_hash.specs.Answer.{hashed};
ghost use Rattle.nat.specs.Lookup.{lookup_of};
ghost use Rattle.pull.specs.Pull.{lending, result_in, pulled};
ghost use Rattle.pull_run.specs.Run.{run_result, run_pulled};
ghost use Rattle.reader.specs.Reading.{Started, Stepped};
ghost use Rattle.reader_result.specs.Result.{read_out};
ghost use Rattle.list.specs.Lists.{listing};
ghost use Rattle.compare.specs.Compare.{compared};
ghost use Rattle.segment_report.specs.Report.{reported, segment_report};
ghost use Rattle.keep.specs.Writing.{writing, keep_written};
ghost use Rattle.keep_file.specs.Reading.{fields_read, read_keep};
ghost use Rattle.keep_compare.specs.Compare.{keep_compared};
ghost use Rattle.harptimber.specs.NameHash.{name_hash};
ghost use Rattle.harptimber.specs.FilePlace.{file_place};

use harptimber::{FilePlace, NameHash};

#[unsafe(no_mangle)]
pub extern "C" fn harptimber_name_hash(name: &[u8]) -> NameHash
    ensures { result ≡ name_hash (hashed name.now) }
{
    harptimber::harptimber_name_hash(name)
}

#[unsafe(no_mangle)]
pub extern "C" fn harptimber_file_place(addresses: u32, index: u32) -> FilePlace
    ensures { result ≡ file_place addresses index }
{
    harptimber::harptimber_file_place(addresses, index)
}

#[unsafe(no_mangle)]
pub extern "C" fn harptimber_node_lookup(image: &[u8], number: u32) -> nat::Lookup
    ensures { result ≡ lookup_of image.now number }
{
    harptimber::harptimber_node_lookup(image, number)
}

#[unsafe(no_mangle)]
pub extern "C" fn harptimber_pull(
    image: &[u8],
    path: &[u8],
    index: u32,
    block: &mut [u8],
    nodes: &mut [u8],
    blocks: &mut [u8],
) -> pull::Pulled
    ensures { result_in result (lending block.new nodes.new blocks.new)
        ≡ pulled image.now path.now index (lending block.old nodes.old blocks.old) }
{
    harptimber::harptimber_pull(image, path, index, block, nodes, blocks)
}

#[unsafe(no_mangle)]
pub extern "C" fn harptimber_pull_run(
    image: &[u8],
    path: &[u8],
    index: u32,
    wanted: u32,
    buffer: &mut [u8],
    nodes: &mut [u8],
    blocks: &mut [u8],
) -> pull_run::Run
    ensures { run_result result (lending buffer.new nodes.new blocks.new)
        ≡ run_pulled image.now path.now index wanted
        (lending buffer.old nodes.old blocks.old) }
{
    harptimber::harptimber_pull_run(image, path, index, wanted, buffer, nodes, blocks)
}

#[unsafe(no_mangle)]
pub extern "C" fn harptimber_reader_start(
    card_blocks: u32,
    path: &[u8],
    index: u32,
) -> reader::Reader
    ensures { Started card_blocks path.now index result }
{
    harptimber::harptimber_reader_start(card_blocks, path, index)
}

#[unsafe(no_mangle)]
pub extern "C" fn harptimber_reader_step(reader: reader::Reader, bytes: &[u8]) -> reader::Reader
    ensures { Stepped reader bytes.now result }
{
    harptimber::harptimber_reader_step(reader, bytes)
}

#[unsafe(no_mangle)]
pub extern "C" fn harptimber_reader_result(
    reader: reader::Reader,
    block: &mut [u8],
    nodes: &mut [u8],
    blocks: &mut [u8],
) -> pull::Pulled
    ensures { result_in result (lending block.new nodes.new blocks.new)
        ≡ read_out reader (lending block.old nodes.old blocks.old) }
{
    harptimber::harptimber_reader_result(reader, block, nodes, blocks)
}

#[unsafe(no_mangle)]
pub extern "C" fn harptimber_compare(
    kept: &[u8],
    fresh: &[u8],
    nodes: &[u8],
    node_count: u32,
    blocks: &[u8],
    block_count: u32,
) -> compare::Compared
    ensures { result
        ≡ compared kept.now fresh.now (listing nodes.now node_count)
        (listing blocks.now block_count) }
{
    harptimber::harptimber_compare(kept, fresh, nodes, node_count, blocks, block_count)
}

#[unsafe(no_mangle)]
pub extern "C" fn harptimber_segment_report(
    image: &[u8],
    list: &mut [u8],
) -> segment_report::Segments
    ensures { reported result list.new ≡ segment_report image.now list.old }
{
    harptimber::harptimber_segment_report(image, list)
}

#[unsafe(no_mangle)]
pub extern "C" fn harptimber_keep(
    image: &[u8],
    path: &[u8],
    index: u32,
    room: &mut [u8],
) -> keep::Written
    ensures { writing result room.new ≡ keep_written image.now path.now index room.old }
{
    harptimber::harptimber_keep(image, path, index, room)
}

#[unsafe(no_mangle)]
pub extern "C" fn harptimber_keep_read(file: &[u8]) -> keep_file::Fields
    ensures { result ≡ fields_read (read_keep file.now) }
{
    harptimber::harptimber_keep_read(file)
}

#[unsafe(no_mangle)]
pub extern "C" fn harptimber_keep_compare(file: &[u8], fresh: &[u8]) -> compare::Compared
    ensures { result ≡ keep_compared file.now fresh.now }
{
    harptimber::harptimber_keep_compare(file, fresh)
}
