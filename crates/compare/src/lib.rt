// Compare: whether a new image gives a pull's answer again, from the lists of what that answer rested on.
// What each means is in specs/: Column, Lists, Difference, Compare.
#![tactic(auto)]

ghost use Rattle.std.specs.Prelude.{◌≡◌, ℕ, Bool, ◌+◌, ◌*◌, ◌≤◌, ◌<◌, Ok, Err, length};
ghost use Rattle.field.specs.Card.{card_of};
ghost use Rattle.checkpoint.specs.OpenImage.{card_in};
ghost use Rattle.list.specs.Lists.{AllOf, listing};
ghost use Rattle.walk.specs.Lent.{view_in};
ghost use Rattle.node.specs.Node.{bounds_of};
ghost use Rattle.compare.specs.Column.{bounds_in, numbers_in, place_of, number_at, all_pass, ListedIn};
ghost use Rattle.compare.specs.Lists.{is_rising, all_in_main, InMain, ListsIn};
ghost use Rattle.compare.specs.Difference.{same_answer, same_bytes, bounds_differ, blocks_differ, nodes_differ, difference, InBoth};
ghost use Rattle.compare.specs.Compare.{answered, verdict, compared_open, compared};

use answer::Refusal;
use checkpoint::OpenImage;

mod column;

pub use column::Column;

// The first difference between two cards, on what the lists name.
#[derive(Clone, Copy, Debug, PartialEq, Eq)]
pub enum Difference {
    BoundsDiffer,
    NodeDiffers(u32),
    BlockDiffers(u32),
}

// Compare's numbers, as they cross to C.
#[repr(C)]
#[derive(Clone, Copy)]
pub struct Compared {
    pub answer: u32,
    pub side: u32,
    pub kind: u32,
    pub number: u32,
}

// The bounds of the main area: its first block, and the one behind its last.
#[derive(Clone, Copy, Debug, PartialEq, Eq)]
pub struct Bounds {
    pub start: u32,
    pub end: u32,
}

pub fn main_area(v: checkpoint::Volume) -> Bounds
    ensures { bounds_in result ≡ bounds_of v }
{
    let areas = v.areas;
    Bounds {
        start: areas.main,
        end: areas.main_end,
    }
}

// ---- numbers a width apart

impl Column<'_> {
    // Where number i stands.
    fn place(self, i: usize) -> usize
        requires { i < self.count }
        ensures { (result ≡ self.entry.start + self.entry.width * i) × (result + 4 ≤ length self.entry.bytes.now) }
    {
        self.start + self.width * i
    }

    pub fn is_rising(self) -> bool
        ensures { result ≡ is_rising (numbers_in self.entry) }
    {
        if self.count == 0 {
            return true;
        }
        let mut last = field::get32(self.bytes, self.place(0));
        for i in 1..self.count {
            let next = field::get32(self.bytes, self.place(i));
            if next <= last {
                return false;
            }
            last = next;
        }
        true
    }

    // Ok if each number passes a test, which is given the number's place too; else the first that doesn't.
    pub fn all_pass<F: Fn(usize, u32) -> bool>(self, test: F) -> Result<(), u32>
        requires { (i : ℕ) → i < self.count → F.pre test (place_of self i) (number_at self i) }
        ensures { (passes : ℕ → Bool)
            → ((i : ℕ) → i < self.entry.count → (r : Bool) → F.post test (place_of self.entry i) (number_at self.entry i) r
            → r ≡ passes (number_at self.entry i))
            → result ≡ all_pass passes (numbers_in self.entry) }
    {
        for i in 0..self.count {
            let at = self.place(i);
            let number = field::get32(self.bytes, at);
            if !test(at, number) {
                return Err(number);
            }
        }
        Ok(())
    }

    pub fn all_in(self, main: Bounds) -> bool
        ensures { result ≡ all_in_main (bounds_in main) (numbers_in self.entry) }
    {
        self.all_pass(|_, b| (main.start <= b) & (b < main.end))
            .is_ok()
    }
}

// ---- the lists' shape

// The nodes and blocks that an answer rested on.
#[derive(Clone, Copy)]
struct Lists<'a> {
    nodes: Column<'a>,
    blocks: Column<'a>,
}

// A list as it comes, unless its count exceeds its slice.
fn listed(bytes: &[u8], count: u32) -> Option<Column<'_>>
    ensures { ListedIn (listing bytes.now count) result }
{
    let count = count as usize;
    if count <= bytes.len() / 4 {
        Some(Column {
            bytes,
            start: 0,
            width: 4,
            count,
        })
    } else {
        None
    }
}

// Both lists, if they are in shape. The counts first: no number is read past its slice, and none at all where no node is listed.
fn lists_in_shape<'a>(
    v: checkpoint::Volume,
    nodes: &'a [u8],
    node_count: u32,
    blocks: &'a [u8],
    block_count: u32,
) -> Option<Lists<'a>>
    ensures { ListsIn (bounds_of v) (listing nodes.now node_count) (listing blocks.now block_count) result }
{
    let nodes = listed(nodes, node_count)?;
    let blocks = listed(blocks, block_count)?;
    if nodes.count == 0 {
        return None;
    }
    if nodes.is_rising() & blocks.is_rising() & blocks.all_in(main_area(v)) {
        Some(Lists { nodes, blocks })
    } else {
        None
    }
}

// ---- the first difference

pub fn compare_bounds(kept: Bounds, fresh: Bounds) -> Result<(), Difference>
    ensures { result ≡ bounds_differ (bounds_in kept) (bounds_in fresh) }
{
    if kept == fresh {
        Ok(())
    } else {
        Err(Difference::BoundsDiffer)
    }
}

fn same_node(kept: OpenImage, fresh: OpenImage, number: u32) -> bool
    ensures { result ≡ same_answer ((view_in kept.entry).table number) ((view_in fresh.entry).table number) }
{
    nat::table_answer(kept, number) == nat::table_answer(fresh, number)
}

fn same_block(kept: &[u8], fresh: &[u8], b: u32) -> bool
    requires { InBoth (card_of kept.now) (card_of fresh.now) b }
    ensures { result ≡ same_bytes ((card_of kept.now).block b) ((card_of fresh.now).block b) }
{
    field::block_at(kept, b) == field::block_at(fresh, b)
}

fn compare_nodes(kept: OpenImage, fresh: OpenImage, nodes: Column) -> Result<(), Difference>
    ensures { result ≡ nodes_differ (view_in kept.entry).table (view_in fresh.entry).table (Ok tt) (numbers_in nodes.entry) }
{
    nodes
        .all_pass(|_, number| same_node(kept, fresh, number))
        .map_err(|number| Difference::NodeDiffers(number))
}

fn compare_blocks(kept: &[u8], fresh: &[u8], blocks: Column) -> Result<(), Difference>
    requires { AllOf (InBoth (card_of kept.now) (card_of fresh.now)) (numbers_in blocks) }
    ensures { result ≡ blocks_differ (card_of kept.now).block (card_of fresh.now).block (numbers_in blocks.entry) }
{
    blocks
        .all_pass(|_, b| same_block(kept, fresh, b))
        .map_err(|b| Difference::BlockDiffers(b))
}

// The bounds first: equal bounds put each listed block inside both images.
fn first_difference(kept: OpenImage, fresh: OpenImage, lists: Lists) -> Result<(), Difference>
    requires { InMain (bounds_of kept.volume) (numbers_in lists.blocks) }
    ensures { result
        ≡ difference (bounds_of kept.entry.volume) (bounds_of fresh.entry.volume) (view_in kept.entry) (view_in fresh.entry)
        (numbers_in lists.entry.nodes) (numbers_in lists.entry.blocks) }
{
    compare_bounds(main_area(kept.volume), main_area(fresh.volume))?;
    compare_nodes(kept, fresh, lists.nodes)?;
    compare_blocks(kept.image, fresh.image, lists.blocks)
}

// ---- the answer

pub fn numbers_of(answer: u32, side: u32, kind: u32, number: u32) -> Compared
    ensures { result ≡ answered answer side kind number }
{
    Compared {
        answer,
        side,
        kind,
        number,
    }
}

pub fn verdict_of(first: Result<(), Difference>) -> Compared
    ensures { result ≡ verdict first }
{
    match first {
        Ok(()) => numbers_of(answer::SAME, 0, 0, 0),
        Err(Difference::BoundsDiffer) => numbers_of(answer::CHANGED, 0, 1, 0),
        Err(Difference::NodeDiffers(n)) => numbers_of(answer::CHANGED, 0, 2, n),
        Err(Difference::BlockDiffers(b)) => numbers_of(answer::CHANGED, 0, 3, b),
    }
}

fn compare_opened(
    kept: OpenImage,
    fresh: OpenImage,
    nodes: &[u8],
    node_count: u32,
    blocks: &[u8],
    block_count: u32,
) -> Compared
    ensures { result
        ≡ compared_open (card_in kept.entry) kept.entry.volume (card_in fresh.entry) fresh.entry.volume
        (listing nodes.now node_count) (listing blocks.now block_count) }
{
    match lists_in_shape(kept.volume, nodes, node_count, blocks, block_count) {
        Some(lists) => verdict_of(first_difference(kept, fresh, lists)),
        None => numbers_of(Refusal::OutOfShape.number(), 0, 0, 0),
    }
}

// Each image is opened once. The lists come as they are: nobody has checked anything beforehand.
pub fn compare(
    kept: &[u8],
    fresh: &[u8],
    nodes: &[u8],
    node_count: u32,
    blocks: &[u8],
    block_count: u32,
) -> Compared
    ensures { result
        ≡ compared kept.now fresh.now (listing nodes.now node_count)
        (listing blocks.now block_count) }
{
    if !(superblock::in_shape(kept.len()) & superblock::in_shape(fresh.len())) {
        return numbers_of(Refusal::OutOfShape.number(), 0, 0, 0);
    }
    let kept = match checkpoint::open(kept) {
        Ok(card) => card,
        Err(refusal) => return numbers_of(refusal.number(), 1, 0, 0),
    };
    let fresh = match checkpoint::open(fresh) {
        Ok(card) => card,
        Err(refusal) => return numbers_of(refusal.number(), 2, 0, 0),
    };
    compare_opened(kept, fresh, nodes, node_count, blocks, block_count)
}
