// What a reader that is fed one block at a time gives, once the answer is there: what the pull gives.
// What it means is in specs/: Result.
#![tactic(auto)]

ghost use Rattle.std.specs.Prelude.{◌≡◌, ◌+◌, ◌*◌, ◌≤◌, length, take, leb};
ghost use Rattle.list.specs.Lists.{numbers, over};
ghost use Rattle.path.specs.Path.{name_count};
ghost use Rattle.pull.specs.Pull.{lending, result_in};
ghost use Rattle.reader_result.specs.Result.{start_by, answer_fits, list_fits, counts_fit_in, answer_by, count_by, numbers_of, bytes_by, read_out};

use answer::Refusal;
use pull::Pulled;
use reader::Reader;
use reader_state::At;

fn names_in(path: &[u8; 2048], end: u32) -> usize
    requires { end ≤ 2048 }
    ensures { result ≡ name_count (take end path.now) }
{
    path::name_count(&path[..end as usize])
}

// Where the answer's bytes start in the block that is held.
fn start_in(stage: u32) -> usize
    ensures { (result ≡ start_by stage) × (result ≤ 4096) }
{
    if 3 < stage { inode::INLINE_START } else { 0 }
}

fn list_fits(count: u32, most: u32, bytes: usize) -> bool
    ensures { result ≡ list_fits count most bytes }
{
    (count <= most) & (count as usize <= bytes / 4)
}

fn bytes_fit(stage: u32, count: u32) -> bool
    ensures { result ≡ leb (count + start_by stage) 4096 }
{
    let end = count as usize + start_in(stage);
    end <= 4096
}

fn answer_fits(stage: u32, answer: u32) -> bool
    ensures { result ≡ answer_fits stage answer }
{
    (1 < stage) | (answer <= 14)
}

#[tactic(auto, unfolding(crate::specs::Result::counts_fit_in))]
fn counts_fit(at: At, nodes: usize, blocks: usize) -> bool
    ensures { result ≡ counts_fit_in at nodes blocks }
{
    list_fits(at.node_count, 1404, nodes)
        & list_fits(at.block_count, 1869, blocks)
        & bytes_fit(at.stage, at.byte_count)
        & answer_fits(at.stage, at.answer)
}

fn copy_list(from: &[u8], count: u32, into: &mut [u8])
    requires { (4 * count ≤ length from.now) × (4 * count ≤ length into.old) }
    ensures { into.new ≡ over (numbers from.now 0 count) into.old }
{
    let end = 4 * count as usize;
    buffer::put_bytes(into, 0, &from[..end]);
}

// The answer's number, by its kind, which crosses to C as a number.
fn answer_by(stage: u32, answer: u32) -> u32
    ensures { result ≡ answer_by stage answer }
{
    match stage {
        1 => answer,
        2 => answer::HOLE,
        _ => answer::DATA,
    }
}

fn count_by(stage: u32, count: u32) -> u32
    ensures { result ≡ count_by stage count }
{
    if stage == 1 { 0 } else { count }
}

// The answer's numbers.
fn numbers_of(at: At) -> Pulled
    ensures { result ≡ numbers_of at }
{
    Pulled {
        answer: answer_by(at.stage, at.answer),
        byte_count: count_by(at.stage, at.byte_count),
        node_count: at.node_count,
        block_count: at.block_count,
    }
}

// Its bytes, by the same number: none, zeros, or those of the block that is held.
fn put_answer(stage: u32, count: u32, held: &[u8; 4096], block: &mut [u8])
    requires { (length block.old ≡ 4096) × (count + start_by stage ≤ 4096) }
    ensures { block.new ≡ bytes_by stage count held.now block.old }
{
    match stage {
        1 => {}
        2 => buffer::clear(block),
        _ => buffer::put_block(held, start_in(stage), count as usize, block),
    }
}

// What a pull gives, once the answer is there.
pub fn read_out(r: Reader, block: &mut [u8], nodes: &mut [u8], blocks: &mut [u8]) -> Pulled
    ensures { result_in result (lending block.new nodes.new blocks.new)
        ≡ read_out r (lending block.old nodes.old blocks.old) }
{
    let at = r.at;
    if !((at.asks == 0) & (at.path_length <= 2048)) {
        return pull::refused_pull(Refusal::OutOfShape.number());
    }
    let k = names_in(&r.path, at.path_length);
    if !(pull::lent_in_shape(k, block.len(), nodes.len(), blocks.len())
        & counts_fit(at, nodes.len(), blocks.len()))
    {
        return pull::refused_pull(Refusal::OutOfShape.number());
    }
    if at.stage == 0 {
        return pull::refused_pull(at.answer);
    }
    put_answer(at.stage, at.byte_count, &r.held, block);
    copy_list(&r.nodes, at.node_count, nodes);
    copy_list(&r.blocks, at.block_count, blocks);
    numbers_of(at)
}
