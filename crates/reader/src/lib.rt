// A reader that is fed one block at a time: its state goes into a step by value, and comes back.
// What each means is in specs/: Reading.
#![tactic(auto)]

ghost use Rattle.std.specs.Prelude.{◌≡◌, true, List, ℕ, ◌+◌, ◌*◌, ◌≤◌, ◌<◌, length, take};
ghost use Rattle.field.specs.Choice.{choose};
ghost use Rattle.list.specs.Lists.{Rising, numbers};
ghost use Rattle.compare.specs.Lists.{is_rising};
ghost use Rattle.asking.specs.Table.{journal_in};
ghost use Rattle.asking.specs.Pull.{start_in_shape};
ghost use Rattle.ask_open.specs.Came.{first_after, second_after};
ghost use Rattle.reader_state.specs.Resume.{memory};
ghost use Rattle.reader_state.specs.Decision.{StartsAt};
ghost use Rattle.reader.specs.Reading.{memory_in, with_number, sound_by, refusal_on, GoesBy, Started, Stepped};

use answer::Refusal;
use ask_open::Keep;
use compare::Column;
use list::NumberList;
use reader_state::{At, Decision};

// Its numbers; the path; two blocks; the NAT journal; both lists, each with room for one number more than eight names can list.
#[repr(C)]
#[derive(Clone, Copy)]
pub struct Reader {
    pub at: At,
    pub path: [u8; 2048],
    pub first: [u8; 4096],
    pub held: [u8; 4096],
    pub journal: [u8; 512],
    pub nodes: [u8; 5620],
    pub blocks: [u8; 7480],
}

// The most numbers that are listed for eight names.
const NODES_MOST: u32 = 1404;

const BLOCKS_MOST: u32 = 1869;

// Whether a list's numbers rise.
fn rises<const N: usize>(list: &[u8; N], count: u32) -> bool
    requires { 4 * count ≤ N }
    ensures { result ≡ is_rising (numbers list.now 0 count) }
{
    let column = Column {
        bytes: list,
        start: 0,
        width: 4,
        count: count as usize,
    };
    column.is_rising()
}

// A number is listed, if there is one.
fn list_number(list: &mut [u8], count: u32, number: Option<u32>) -> u32
    requires { (4 * count + 4 ≤ length list.old) × (count < 2048) × Rising (numbers list.old 0 count) }
    ensures { numbers list.new 0 result ≡ with_number number (numbers list.old 0 count) }
{
    let Some(x) = number else {
        return count;
    };
    let mut numbers = NumberList {
        bytes: list,
        count: count as usize,
    };
    numbers.insert(x);
    numbers.count as u32
}

// The block that came is kept, or the second pack's first block becomes the chosen one's.
fn keep_block(first: &mut [u8; 4096], held: &mut [u8; 4096], bytes: &[u8], keep: Keep)
    requires { (keep ≡ Keep.Nothing → ⊥) → length bytes.now ≡ 4096 }
    ensures { (first.new ≡ first_after keep first.old held.old bytes.now) × (held.new ≡ second_after keep held.old bytes.now) }
{
    match keep {
        Keep::Nothing => {}
        Keep::First => buffer::copy(bytes, first),
        Keep::Second => buffer::copy(bytes, held),
        Keep::SecondAsFirst => buffer::copy(held, first),
    }
}

fn keep_path(into: &mut [u8; 2048], from: &[u8])
    requires { length from.now ≤ 2048 }
    ensures { (take (length from.now) into.new ≡ from.now) × (length into.new ≡ 2048) }
{
    buffer::copy(from, into);
}

// The journal's bytes in its block, where it is kept.
fn keep_journal(into: &mut [u8; 512], block: &[u8], at: u32, keeps: bool)
    requires { keeps ≡ true → (length block.now ≡ 4096) × (at ≤ 3584) }
    ensures { into.new ≡ choose keeps (journal_in at block.now) into.old }
{
    if keeps {
        let start = at as usize;
        buffer::copy(&block[start..start + 512], into);
    }
}

// Nothing is kept or listed, and the answer is 4.
fn refusal(at: At) -> Decision
    ensures { result ≡ refusal_on at }
{
    Decision {
        at: reader_state::refuses_at(at, Refusal::OutOfShape),
        keep: Keep::Nothing,
        journal: false,
        looked: None,
        read: None,
    }
}

// A reader that asks for block 0, without a path yet.
fn blank(card_blocks: u32, index: u32) -> Reader
    ensures { StartsAt card_blocks index 0 result.at × (length result.path ≡ 2048) × (length result.first ≡ 4096)
        × (length result.held ≡ 4096) × (length result.journal ≡ 512) }
{
    Reader {
        at: reader_state::blank_at(card_blocks, index),
        path: [0; 2048],
        first: [0; 4096],
        held: [0; 4096],
        journal: [0; 512],
        nodes: [0; 5620],
        blocks: [0; 7480],
    }
}

// Whether a card has as many blocks as a pull takes, and the path is one. Inlined, its loop would stand between the making of a state and
// its use, and the state be made and copied twice more.
#[inline(never)]
fn in_shape(card_blocks: u32, path: &[u8]) -> bool
    ensures { result ≡ start_in_shape card_blocks path.now }
{
    (2 <= card_blocks) & (card_blocks <= 4194304) & (path::name_count(path) != 0)
}

// A reader of a card of so many blocks, for a path and an index.
pub fn start(card_blocks: u32, path: &[u8], index: u32) -> Reader
    ensures { Started card_blocks path.now index result }
{
    let mut t = blank(card_blocks, index);
    if !in_shape(card_blocks, path) {
        t.at = reader_state::refuses_at(t.at, Refusal::OutOfShape);
        return t;
    }
    keep_path(&mut t.path, path);
    t.at.path_length = path.len() as u32;
    t
}

impl Reader {
    // Whether the state fits, so that a step goes on from it.
    #[tactic(auto, unfolding(crate::specs::Reading::sound_by))]
    fn is_sound(&self) -> bool
        ensures { (path : List ℕ) → result
            ≡ sound_by self.now.at (memory path self.now.first self.now.held self.now.journal) self.now.nodes self.now.blocks }
    {
        if NODES_MOST < self.at.node_count {
            return false;
        }
        if BLOCKS_MOST < self.at.block_count {
            return false;
        }
        rises(&self.nodes, self.at.node_count)
            & rises(&self.blocks, self.at.block_count)
            & reader_state::fits(self.at, &self.first, &self.held, &self.journal)
    }

    // What a reader does that asks for a block, with the bytes that come: others than a block's, and a state that doesn't fit, are 4.
    fn decide(&self, bytes: &[u8]) -> Decision
        ensures { GoesBy self.now.at (memory_in self.now) self.now.nodes self.now.blocks bytes.now result }
    {
        if bytes.len() != 4096 {
            return refusal(self.at);
        }
        if !self.is_sound() {
            return refusal(self.at);
        }
        reader_state::decide(
            self.at,
            &self.path,
            &self.first,
            &self.held,
            &self.journal,
            bytes,
        )
    }

    // One step: the block that was asked for comes, and the reader asks for the next one or has the answer. All that changes is changed
    // in one copy of the state. It is inlined, as is the call of it: each level of calls would copy the state twice, on a small stack.
    #[inline(always)]
    pub fn step(self, bytes: &[u8]) -> Reader
        ensures { Stepped self bytes.now result }
    {
        let mut t = self;
        if t.at.asks == 0 {
            return t;
        }
        let d = t.decide(bytes);
        keep_block(&mut t.first, &mut t.held, bytes, d.keep);
        let mut next = d.at;
        keep_journal(&mut t.journal, bytes, next.volume.journal_at, d.journal);
        next.node_count = list_number(&mut t.nodes, next.node_count, d.looked);
        next.block_count = list_number(&mut t.blocks, next.block_count, d.read);
        t.at = next;
        t
    }
}
