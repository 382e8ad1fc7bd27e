// "Any bytes may come as an image, name or list .. and nobody has checked anything beforehand": each exported call, made with
// whatever comes by a function that knows nothing of it and asks nothing. A precondition on a call would leave its caller here
// unproved. A test sees to it that no call of the C header is missing.

#![tactic(auto)]

pub fn name_hash(name: &[u8]) -> harptimber::NameHash {
    harptimber::harptimber_name_hash(name)
}

pub fn file_place(addresses: u32, index: u32) -> harptimber::FilePlace {
    harptimber::harptimber_file_place(addresses, index)
}

pub fn node_lookup(image: &[u8], number: u32) -> nat::Lookup {
    harptimber::harptimber_node_lookup(image, number)
}

pub fn pull(
    image: &[u8],
    path: &[u8],
    index: u32,
    block: &mut [u8],
    nodes: &mut [u8],
    blocks: &mut [u8],
) -> pull::Pulled {
    harptimber::harptimber_pull(image, path, index, block, nodes, blocks)
}

pub fn pull_run(
    image: &[u8],
    path: &[u8],
    index: u32,
    wanted: u32,
    buffer: &mut [u8],
    nodes: &mut [u8],
    blocks: &mut [u8],
) -> pull_run::Run {
    harptimber::harptimber_pull_run(image, path, index, wanted, buffer, nodes, blocks)
}

pub fn reader_start(card_blocks: u32, path: &[u8], index: u32) -> reader::Reader {
    harptimber::harptimber_reader_start(card_blocks, path, index)
}

pub fn reader_step(reader: reader::Reader, bytes: &[u8]) -> reader::Reader {
    harptimber::harptimber_reader_step(reader, bytes)
}

pub fn reader_result(
    reader: reader::Reader,
    block: &mut [u8],
    nodes: &mut [u8],
    blocks: &mut [u8],
) -> pull::Pulled {
    harptimber::harptimber_reader_result(reader, block, nodes, blocks)
}

pub fn compare(
    kept: &[u8],
    fresh: &[u8],
    nodes: &[u8],
    node_count: u32,
    blocks: &[u8],
    block_count: u32,
) -> compare::Compared {
    harptimber::harptimber_compare(kept, fresh, nodes, node_count, blocks, block_count)
}

pub fn segment_report(image: &[u8], list: &mut [u8]) -> segment_report::Segments {
    harptimber::harptimber_segment_report(image, list)
}

pub fn keep(image: &[u8], path: &[u8], index: u32, room: &mut [u8]) -> keep::Written {
    harptimber::harptimber_keep(image, path, index, room)
}

pub fn keep_read(file: &[u8]) -> keep_file::Fields {
    harptimber::harptimber_keep_read(file)
}

pub fn keep_compare(file: &[u8], fresh: &[u8]) -> compare::Compared {
    harptimber::harptimber_keep_compare(file, fresh)
}
