// Where a reader is that is fed one block at a time, and what it does with the block that comes: its numbers then, which bytes it keeps, and
// what it lists. What each means is in specs/: Resume, Decision, Fits.
#![tactic(auto)]

ghost use Rattle.std.specs.Prelude.{◌≡◌, true, List, ℕ, ◌≤◌, ◌<◌, length};
ghost use Rattle.answer.specs.Number.{refusal_number};
ghost use Rattle.asking.specs.Asking.{Asking};
ghost use Rattle.asking.specs.Open.{Opens};
ghost use Rattle.asking.specs.Pull.{Ending};
ghost use Rattle.ask_open.specs.Came.{open_came, open_goes, OpeningIn};
ghost use Rattle.reader_state.specs.Resume.{memory, stage_of};
ghost use Rattle.reader_state.specs.Decision.{StartsAt, asks_at, ends_at, refuses_at, opens_in, opens_at, goes_at, block_read, keep_if, open_on, walk_on};
ghost use Rattle.reader_state.specs.Fits.{areas_fit, pack_fits, map_fits, open_fits, spot_fits, walk_fits, fits, Decided};
ghost use Rattle.reader_state.specs.State.{bytes_in};

use answer::Refusal;
use ask_directory::{Goes, Move, Spot, Target};
use ask_node::Kept;
use ask_open::{Keep, Opening, Stage};
use checkpoint::Volume;

mod state;

use state::State;

// A reader's numbers, as they cross to C. First whether a block is asked for, and which; then the stage that it is asked for in, or the
// answer's kind, and what was given at the start.
#[repr(C)]
#[derive(Clone, Copy)]
pub struct At {
    pub asks: u32,
    pub block: u32,
    pub stage: u32,
    pub card_blocks: u32,
    pub index: u32,
    pub path_length: u32,
    pub volume: Volume,
    pub target: Target,
    pub table_inode: u32,
    pub spot: Spot,
    pub answer: u32,
    pub byte_count: u32,
    pub node_count: u32,
    pub block_count: u32,
}

// The numbers then; which of its blocks is kept, and whether the journal is; the node that was looked up, if one was, and the block that is
// asked for, if it is one that the walk reads.
#[derive(Clone, Copy)]
pub struct Decision {
    pub at: At,
    pub keep: Keep,
    pub journal: bool,
    pub looked: Option<u32>,
    pub read: Option<u32>,
}

// At the start: the superblock's first copy is asked for.
pub fn blank_at(card_blocks: u32, index: u32) -> At
    ensures { StartsAt card_blocks index 0 result }
{
    At {
        asks: 1,
        block: 0,
        stage: 0,
        card_blocks,
        index,
        path_length: 0,
        volume: ask_open::no_volume(),
        target: Target::default(),
        table_inode: 0,
        spot: Spot::default(),
        answer: 0,
        byte_count: 0,
        node_count: 0,
        block_count: 0,
    }
}

fn asks_at(
    at: At,
    volume: Volume,
    target: Target,
    table_inode: u32,
    spot: Spot,
    stage: u32,
    block: u32,
) -> At
    ensures { result ≡ asks_at at volume target table_inode spot stage block }
{
    At {
        asks: 1,
        block,
        stage,
        volume,
        target,
        table_inode,
        spot,
        answer: 0,
        byte_count: 0,
        ..at
    }
}

fn ends_at(at: At, stage: u32, answer: u32, count: u32) -> At
    ensures { result ≡ ends_at at stage answer count }
{
    At {
        asks: 0,
        block: 0,
        stage,
        answer,
        byte_count: count,
        ..at
    }
}

// The answer is a refusal.
pub fn refuses_at(at: At, refusal: Refusal) -> At
    ensures { result ≡ refuses_at at (refusal_number refusal) }
{
    At {
        asks: 0,
        block: 0,
        stage: 0,
        answer: refusal.number(),
        byte_count: 0,
        node_count: 0,
        block_count: 0,
        ..at
    }
}

// A block is asked for in a stage of opening.
fn opens_in(at: At, volume: Volume, block: u32, stage: u32) -> At
    ensures { result ≡ opens_in at volume block stage }
{
    asks_at(at, volume, at.target, 0, at.spot, stage, block)
}

fn opens_at(at: At, volume: Volume, block: u32, stage: Stage) -> At
    ensures { result ≡ opens_at at volume block stage }
{
    match stage {
        Stage::FirstCopy => opens_in(at, volume, block, 0),
        Stage::SecondCopy => opens_in(at, volume, block, 1),
        Stage::OneFirst => opens_in(at, volume, block, 2),
        Stage::OneLast => opens_in(at, volume, block, 3),
        Stage::TwoFirst(passed) => opens_in(at, volume, block, 4 + passed as u32),
        Stage::TwoLast(passed) => opens_in(at, volume, block, 6 + passed as u32),
        Stage::Journal => opens_in(at, volume, block, 8),
        Stage::Refused(refusal) => refuses_at(at, refusal),
    }
}

// Where opening goes.
fn open_on(at: At, o: Opening) -> Decision
    ensures { result ≡ open_on at o }
{
    Decision {
        at: opens_at(at, o.volume, o.block, o.stage),
        keep: o.keep,
        journal: false,
        looked: None,
        read: None,
    }
}

fn goes_at(at: At, target: Target, spot: Spot, goes: Goes) -> At
    ensures { result ≡ goes_at at target spot goes }
{
    let v = at.volume;
    match goes {
        Goes::Table(b) => asks_at(at, v, target, 0, spot, 9, b),
        Goes::Node(b, table_inode) => asks_at(at, v, target, table_inode, spot, 10, b),
        Goes::Data(b) => asks_at(at, v, target, 0, spot, 11, b),
        Goes::Stop(reason) => ends_at(at, 1, reason.number(), 0),
        Goes::Empty(count) => ends_at(at, 2, answer::HOLE, count),
        Goes::Full(count) => ends_at(at, 3, answer::DATA, count),
        Goes::Inline(count) => ends_at(at, 4, answer::DATA, count),
    }
}

// The block that is asked for, if the walk reads it.
fn block_read(goes: Goes) -> Option<u32>
    ensures { result ≡ block_read goes }
{
    match goes {
        Goes::Node(b, _) => Some(b),
        Goes::Data(b) => Some(b),
        Goes::Table(_) | Goes::Stop(_) | Goes::Empty(_) | Goes::Full(_) | Goes::Inline(_) => None,
    }
}

// Where the walk goes.
fn walk_on(at: At, m: Move, keep: Keep, journal: bool) -> Decision
    ensures { result ≡ walk_on at m keep journal }
{
    Decision {
        at: goes_at(at, m.target, m.spot, m.goes),
        keep,
        journal,
        looked: m.looked,
        read: block_read(m.goes),
    }
}

// Whether a block that comes is kept: an inode that came, or the file's block.
fn keep_if(keeps: bool) -> Keep
    ensures { result ≡ keep_if keeps }
{
    if keeps { Keep::Second } else { Keep::Nothing }
}

impl State<'_> {
    // Opening, up to the journal. The stages stand by their numbers, as they cross to C.
    fn open_next(self, bytes: &[u8]) -> Opening
        requires { (self.at.stage < 8) × (length bytes.now ≡ 4096) }
        ensures result_value { (k : Opens → Asking Ending) → open_goes k self.entry.at.card_blocks self.entry.first.now self.entry.held.now bytes.now result
            ≡ open_came k self.entry.at.card_blocks self.entry.at.volume self.entry.first.now self.entry.held.now
            (stage_of self.entry.at.stage) bytes.now }
        ensures opening_in { OpeningIn self.entry.first.now self.entry.held.now bytes.now result }
    {
        let at = self.at;
        let v = at.volume;
        let stage = at.stage;
        match stage {
            0 => ask_open::copy_came(at.card_blocks, false, bytes),
            1 => ask_open::copy_came(at.card_blocks, true, bytes),
            2 => ask_open::one_first_came(v, bytes),
            3 => ask_open::one_last_came(v, self.first, bytes),
            4 => ask_open::two_first_came(v, false, self.first, bytes),
            5 => ask_open::two_first_came(v, true, self.first, bytes),
            6 => ask_open::two_last_came(v, false, self.first, self.held, bytes),
            _ => ask_open::two_last_came(v, true, self.first, self.held, bytes),
        }
    }

    // The journal's block came: the card is open, and the walk begins at the root.
    fn journal_next(self, bytes: &[u8]) -> Decision
        requires { (self.at.stage ≡ 8) × (length bytes.now ≡ 4096) }
        ensures { Decided self.entry.at (bytes_in self.entry) bytes.now result }
    {
        let v = self.at.volume;
        if !ask_open::journal_readable(v, bytes) {
            return Decision {
                at: refuses_at(self.at, Refusal::Unreadable),
                keep: Keep::Nothing,
                journal: false,
                looked: None,
                read: None,
            };
        }
        let start = v.journal_at as usize;
        let kept = Kept {
            volume: v,
            first: self.first,
            journal: &bytes[start..start + 512],
        };
        let m = ask_path::enter(kept, 3, 0);
        walk_on(self.at, m, Keep::Nothing, true)
    }

    // A block of the walk came.
    fn walk_next(self, bytes: &[u8]) -> Decision
        requires { (9 ≤ self.at.stage) × (length bytes.now ≡ 4096) }
        ensures { Decided self.entry.at (bytes_in self.entry) bytes.now result }
    {
        let at = self.at;
        let target = at.target;
        let spot = at.spot;
        let stage = at.stage;
        if stage == 9 {
            let m = ask_path::table_came(at.volume, target, spot, bytes);
            return walk_on(at, m, Keep::Nothing, false);
        }
        let kept = Kept {
            volume: at.volume,
            first: self.first,
            journal: self.journal,
        };
        let end = at.path_length as usize;
        let names = &self.path[..end];
        if stage == 10 {
            let m = ask_path::node_came(
                kept,
                names,
                at.index,
                self.held,
                target,
                at.table_inode,
                spot,
                bytes,
            );
            return walk_on(at, m, keep_if(target.hop == 0), false);
        }
        let m = ask_path::data_came(kept, names, at.index, self.held, spot, bytes);
        walk_on(at, m, keep_if(end < spot.name_at as usize), false)
    }

    // What is decided in a stage.
    fn decide_in(self, bytes: &[u8]) -> Decision
        requires { length bytes.now ≡ 4096 }
        ensures { Decided self.entry.at (bytes_in self.entry) bytes.now result }
    {
        let at = self.at;
        if 9 <= at.stage {
            return self.walk_next(bytes);
        }
        if at.stage == 8 {
            return self.journal_next(bytes);
        }
        open_on(at, self.open_next(bytes))
    }
}

// The block that was asked for came.
pub fn decide<'a>(
    at: At,
    path: &'a [u8; 2048],
    first: &'a [u8; 4096],
    held: &'a [u8; 4096],
    journal: &'a [u8; 512],
    bytes: &[u8],
) -> Decision
    requires { (fits at (memory path.now first.now held.now journal.now) ≡ true) × (length bytes.now ≡ 4096) }
    ensures decided { Decided at (memory path.now first.now held.now journal.now) bytes.now result }
    ensures held_len { length held.now ≡ 4096 }
{
    let state = State {
        at,
        path,
        first,
        held,
        journal,
    };
    state.decide_in(bytes)
}

#[tactic(auto, unfolding(crate::specs::Fits::areas_fit))]
fn areas_fit(a: superblock::Areas) -> bool
    ensures { result ≡ areas_fit a }
{
    (a.checkpoint as u64 + 1024 < 4294967296)
        & (a.ssa as u64 == a.nat as u64 + 512 * (a.nat_segments as u64))
        & (a.nat_segments % 2 == 0)
}

#[tactic(auto, unfolding(crate::specs::Fits::pack_fits))]
fn pack_fits(first: &[u8]) -> bool
    requires { length first.now ≡ 4096 }
    ensures { result ≡ pack_fits first.now }
{
    let cp = checkpoint::checkpoint_of(first);
    (2 <= cp.cp_pack_total_block_count) & (cp.cp_pack_total_block_count <= 512)
}

#[tactic(auto, unfolding(crate::specs::Fits::map_fits))]
fn map_fits(v: Volume) -> bool
    ensures { result ≡ map_fits v }
{
    v.nat_map as u64 + 32 * (v.areas.nat_segments as u64) <= 4092
}

#[tactic(auto, unfolding(crate::specs::Fits::open_fits))]
fn open_fits<'a>(stage: u32, v: Volume, first: &'a [u8], second: &'a [u8]) -> bool
    requires { (length first.now ≡ 4096) × (length second.now ≡ 4096) }
    ensures { result ≡ open_fits stage v first.now second.now }
{
    let one = (stage == 3) | (stage == 5) | (stage == 7);
    let two = (stage == 6) | (stage == 7);
    (stage < 2)
        | (areas_fit(v.areas)
            & (!one | pack_fits(first))
            & (!two | pack_fits(second))
            & ((stage != 8) | (map_fits(v) & (v.journal_at <= 3584))))
}

#[tactic(auto, unfolding(crate::specs::Fits::spot_fits))]
fn spot_fits(path_length: u32, index: u32, inode: &[u8], p: Spot) -> bool
    requires { length inode.now ≡ 4096 }
    ensures { result ≡ spot_fits path_length index inode.now p }
{
    let i = inode::inode_of(inode);
    if p.name_at <= path_length {
        return inode::is_directory(i) & (p.level < 63) & (p.block < 4);
    }
    !inode::is_past(i, index)
}

#[tactic(auto, unfolding(crate::specs::Fits::walk_fits))]
fn walk_fits<'a>(at: At, inode: &'a [u8], journal: &'a [u8]) -> bool
    requires { (length inode.now ≡ 4096) × (length journal.now ≡ 512) }
    ensures { result ≡ walk_fits at inode.now journal.now }
{
    let v = at.volume;
    let target = at.target;
    let spot = at.spot;
    let kept = areas_fit(v.areas) & map_fits(v) & (field::get16(journal, 0) <= 38);
    let there = spot_fits(at.path_length, at.index, inode, spot);
    if 10 < at.stage {
        return kept & there;
    }
    kept & ((target.hop < 4) & ((target.hop == 0) | there))
}

#[tactic(auto, unfolding(crate::specs::Fits::fits))]
fn state_fits<'a>(at: At, first: &'a [u8], held: &'a [u8], journal: &'a [u8]) -> bool
    requires { (length first.now ≡ 4096) × (length held.now ≡ 4096) × (length journal.now ≡ 512) }
    ensures { (path : List ℕ) → result ≡ fits at (memory path first.now held.now journal.now) }
{
    if 2048 < at.path_length {
        return false;
    }
    if at.stage < 9 {
        return open_fits(at.stage, at.volume, first, held)
            & (at.node_count == 0)
            & (at.block_count == 0);
    }
    walk_fits(at, held, journal)
}

// Whether the numbers and bytes of a state fit each other. Those of every state that the start or a step gave do.
pub fn fits<'a>(at: At, first: &'a [u8; 4096], held: &'a [u8; 4096], journal: &'a [u8; 512]) -> bool
    ensures by_index { (path : List ℕ) → result ≡ fits at (memory path first.now held.now journal.now) }
    ensures first_len { (length first.now ≡ 4096) × (length held.now ≡ 4096) × (length journal.now ≡ 512) }
{
    state_fits(at, first, held, journal)
}
