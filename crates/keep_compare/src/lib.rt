// Comparing a keep file with a new image: whether the image gives the kept answer again.
// What it means is in specs/Compare.
#![tactic(auto)]

ghost use Rattle.std.specs.Prelude.{◌≡◌, ◌+◌, ◌≤◌, ◌<◌, length};
ghost use Rattle.field.specs.Card.{card_of};
ghost use Rattle.list.specs.Lists.{AllOf};
ghost use Rattle.walk.specs.Lent.{view_in};
ghost use Rattle.compare.specs.Difference.{same, same_answer, same_bytes, nodes_differ, blocks_differ};
ghost use Rattle.checkpoint.specs.OpenImage.{card_in};
ghost use Rattle.keep_file.specs.Keep.{numbers_of, kept_answer, kept_block};
ghost use Rattle.keep_file.specs.Reading.{answer_at, bytes_at, keep_in};
ghost use Rattle.keep_compare.specs.Compare.{keep_difference, keep_compared};

use answer::Refusal;
use checkpoint::OpenImage;
use compare::{Compared, Difference};
use keep_file::KeepFile;

// Whether the table answer that is kept at an offset is the new image's.
fn same_node(file: &[u8], at: usize, fresh: OpenImage, number: u32) -> bool
    requires { at + 12 ≤ length file.now }
    ensures { result ≡ same_answer (answer_at file.now at) ((view_in fresh.entry).table number) }
{
    keep_file::answer_at(file, at) == nat::table_answer(fresh, number)
}

// Whether the bytes that are kept at an offset are those of the new image's block.
fn same_block(file: &[u8], at: usize, fresh: &[u8], b: u32) -> bool
    requires b_bound { b < (card_of fresh.now).blocks }
    requires at_in_bounds { at + 4096 ≤ length file.now }
    ensures { result ≡ same_bytes (bytes_at file.now at) ((card_of fresh.now).block b) }
{
    &file[at..at + 4096] == field::block_at(fresh, b)
}

// The listed nodes: the first whose table answer in the new image isn't the kept one.
fn compare_nodes(kept: KeepFile, fresh: OpenImage) -> Result<(), Difference>
    ensures { result
        ≡ nodes_differ (kept_answer (keep_in kept.entry.parts.bytes.now).nodes) (view_in fresh.entry).table same
        (numbers_of (keep_in kept.entry.parts.bytes.now).nodes) }
{
    let file = kept.parts.bytes;
    let nodes = kept.parts.nodes();
    nodes
        .all_pass(|at, number| same_node(file, at + 4, fresh, number))
        .map_err(|number| Difference::NodeDiffers(number))
}

// The listed blocks: the first whose bytes in the new image aren't the kept ones.
fn compare_blocks(kept: KeepFile, fresh: &[u8]) -> Result<(), Difference>
    requires { AllOf (λ b. b < (card_of fresh.now).blocks) (numbers_of (keep_in kept.parts.bytes.now).blocks) }
    ensures { result
        ≡ blocks_differ (kept_block (keep_in kept.entry.parts.bytes.now).blocks) (card_of fresh.now).block
        (numbers_of (keep_in kept.entry.parts.bytes.now).blocks) }
{
    let file = kept.parts.bytes;
    let blocks = kept.parts.blocks();
    blocks
        .all_pass(|at, b| same_block(file, at + 4, fresh, b))
        .map_err(|b| Difference::BlockDiffers(b))
}

// The bounds first: equal bounds put each listed block inside the new image.
fn first_difference(kept: KeepFile, fresh: OpenImage) -> Result<(), Difference>
    ensures { result ≡ keep_difference (keep_in kept.entry.parts.bytes.now) (card_in fresh.entry) fresh.entry.volume }
{
    compare::compare_bounds(kept.parts.bounds(), compare::main_area(fresh.volume))?;
    compare_nodes(kept, fresh)?;
    compare_blocks(kept, fresh.image)
}

// The file is read before the new image is looked at.
pub fn keep_compare(file: &[u8], fresh: &[u8]) -> Compared
    ensures { result ≡ keep_compared file.now fresh.now }
{
    let kept = match keep_file::keep_file(file) {
        Some(kept) => kept,
        None => return compare::numbers_of(answer::BAD_KEEP_FILE, 0, 0, 0),
    };
    if !superblock::in_shape(fresh.len()) {
        return compare::numbers_of(Refusal::OutOfShape.number(), 0, 0, 0);
    }
    match checkpoint::open(fresh) {
        Ok(card) => compare::verdict_of(first_difference(kept, card)),
        Err(refusal) => compare::numbers_of(refusal.number(), 2, 0, 0),
    }
}
