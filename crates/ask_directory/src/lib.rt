// Where a walk goes for a reader that is fed one block at a time, and the search of a directory: to the next block that there is.
// What each means is in specs/: Left, Move.
#![tactic(auto)]

ghost use Rattle.std.specs.Prelude.{◌≡◌, true, false, List, ◌∷◌, ℕ, ◌<◌, ◌≤◌, length};
ghost use Rattle.walk.specs.Walk.{Seen};
ghost use Rattle.inode.specs.Inode.{inode_of, is_directory};
ghost use Rattle.name_hash.specs.Hash.{hash_of};
ghost use Rattle.asking.specs.Table.{asking};
ghost use Rattle.asking.specs.Pull.{came};
ghost use Rattle.ask_node.specs.Wants.{kept_in};
ghost use Rattle.ask_directory.specs.Left.{question, names_from, search_then};
ghost use Rattle.ask_directory.specs.Move.{moved, goes_on, no_target, fetch_move, bucket_move, is_empty, MoveIn};

use answer::Stop;
use ask_node::{Fetch, Kept, Wants};

// Where a walk is: the inode number of the directory or file at hand, where in the path the name starts that is sought in it (behind the
// path's end for a file), and which block of which hash level's bucket is looked for.
#[repr(C)]
#[derive(Clone, Copy, Default)]
pub struct Spot {
    pub ino: u32,
    pub name_at: u32,
    pub level: u32,
    pub block: u32,
}

// The node that is sought: its number and its place in the file; the block index that it leads to, and its hop on the way. An inode has
// hop 0.
#[repr(C)]
#[derive(Clone, Copy, Default)]
pub struct Target {
    pub number: u32,
    pub place: u32,
    pub index: u32,
    pub hop: u32,
}

// What is asked for next: a table block, a node's block (with the inode that the table has for it), a data block. Or the answer: what
// ends the walk, or a hole, the block that came, what is in the inode that came, each of these with how many bytes are the file's.
#[derive(Clone, Copy)]
pub enum Goes {
    Table(u32),
    Node(u32, u32),
    Data(u32),
    Stop(Stop),
    Empty(u32),
    Full(u32),
    Inline(u32),
}

// Where the walk goes, and the node that was looked up, if one was.
#[derive(Clone, Copy)]
pub struct Move {
    pub goes: Goes,
    pub looked: Option<u32>,
    pub target: Target,
    pub spot: Spot,
}

pub fn goes_on(count: u32, wants: Wants) -> Goes
    ensures { result ≡ goes_on count wants }
{
    match wants {
        Wants::Table(b) => Goes::Table(b),
        Wants::Node(b, table_inode) => Goes::Node(b, table_inode),
        Wants::Data(b) => Goes::Data(b),
        Wants::Hole => Goes::Empty(count),
        Wants::Stop(reason) => Goes::Stop(reason),
    }
}

pub fn fetch_move(f: Fetch, index: u32, spot: Spot, count: u32) -> Move
    ensures { result ≡ fetch_move f index spot count }
{
    let goes = goes_on(count, f.wants);
    let target = Target {
        number: f.looked.unwrap_or(0),
        place: f.place,
        index,
        hop: f.hop,
    };
    Move {
        goes,
        looked: f.looked,
        target,
        spot,
    }
}

// Without a target.
pub fn go_to(spot: Spot, goes: Goes) -> Move
    ensures { result ≡ no_target spot goes }
{
    Move {
        goes,
        looked: None,
        target: Target::default(),
        spot,
    }
}

pub fn is_empty(goes: Goes) -> bool
    ensures { result ≡ is_empty goes }
{
    matches!(goes, Goes::Empty(_))
}

// A directory's block of an index. Past the last index there is none.
fn in_bucket(kept: Kept, inode: &[u8], spot: Spot, index: usize) -> Move
    requires inode_len { length inode.now ≡ 4096 }
    ensures value { result ≡ bucket_move (kept_in kept.entry) inode.now spot index }
    ensures hop_bound { result.target.hop < 4 }
{
    let i = inode::inode_of(inode);
    let last = inode::addresses_in(i) as usize + 1057052515;
    if last < index {
        return go_to(spot, Goes::Empty(0));
    }
    let f = kept.fetch_block(inode, index as u32);
    fetch_move(f, index as u32, spot, 0)
}

// The most hash levels that a directory has.
const LEVELS_MOST: usize = 63;

// The search of a directory, from a spot's block of a level's bucket on, to the next block that there is.
pub fn search(kept: Kept, inode: &[u8], from: Spot, hash: u32) -> Move
    requires inode_len { (length inode.now ≡ 4096) × (is_directory (inode_of inode.now) ≡ true) × (from.level < 63) × (from.block ≤ 4) }
    ensures by_index { (path : List ℕ) (index : ℕ) (name : List ℕ) (names : List (List ℕ)) (s : Seen) → hash ≡ hash_of name
        → names_from path from.name_at ≡ name ∷ names → let t = kept_in kept.entry in
        moved (question t path index) inode.now s result
        ≡ asking t came s (search_then (question t path index) from.ino inode.now name names from.level from.block) }
    ensures by_index_2 { (path : List ℕ) (index : ℕ) → from.name_at ≤ length path → MoveIn path index inode.now result }
{
    let i = inode::inode_of(inode);
    let depth = i.depth as usize;
    let dir_level = i.level as usize;
    let mut start = from.block as usize;
    for n in from.level as usize..LEVELS_MOST {
        let here = hash_level::level_at(dir_level, n, hash);
        for k in start..here.count {
            let spot = Spot {
                level: n as u32,
                block: k as u32,
                ..from
            };
            let next = in_bucket(kept, inode, spot, here.bucket + k);
            let goes = next.goes;
            if !is_empty(goes) {
                return next;
            }
        }
        if depth <= n + 1 {
            break;
        }
        start = 0;
    }
    go_to(from, Goes::Stop(Stop::NoName))
}
