// The walk of a pull for a reader that is fed one block at a time: a block comes, and it is said where the walk goes.
// What each means is in ask_directory's specs/: Left, Move.
#![tactic(auto)]

ghost use Rattle.std.specs.Prelude.{◌≡◌, true, List, ℕ, ◌<◌, ◌≤◌, length, eqb, ltb, IfErr};
ghost use Rattle.field.specs.Choice.{choose};
ghost use Rattle.nat.specs.Table.{entry_in};
ghost use Rattle.walk.specs.Walk.{Seen, and_then};
ghost use Rattle.inode.specs.Inode.{inode_of, is_directory};
ghost use Rattle.node.specs.Node.{bounds_of, at_block, at_entry};
ghost use Rattle.node.specs.Block.{held};
ghost use Rattle.name_hash.specs.Hash.{hash_of};
ghost use Rattle.dentry.specs.Slot.{layout_of, wanted_in, in_slots};
ghost use Rattle.dentry.specs.Scan.{sought_of};
ghost use Rattle.asking.specs.Table.{keeping, asking};
ghost use Rattle.asking.specs.Pull.{came};
ghost use Rattle.ask_node.specs.Wants.{kept_in};
ghost use Rattle.ask_directory.specs.Left.{question, names_from, names_then, inode_then, data_then, node_then};
ghost use Rattle.ask_directory.specs.Move.{moved, IsNode, SpotIn, MoveIn};

use answer::Stop;
use ask_directory::{Goes, Move, Spot, Target};
use ask_node::Kept;
use dentry::{Name, Scan};

// An inode is sought by its number, for the name that starts there in the path, or as the file.
pub fn enter(kept: Kept, ino: u32, name_at: u32) -> Move
    ensures by_index { (path : List ℕ) (index : ℕ) (block : List ℕ) (s : Seen)
        → let t = kept_in kept.entry in
        moved (question t path index) block s result ≡ asking t came s (names_then (question t path index) (names_from path name_at) ino) }
    ensures by_index_2 { (path : List ℕ) (index : ℕ) (block : List ℕ) → MoveIn path index block result }
{
    let wants = kept.seek(ino);
    let goes = ask_directory::goes_on(0, wants);
    let target = Target {
        number: ino,
        place: 0,
        index: 0,
        hop: 0,
    };
    let spot = Spot {
        ino,
        name_at,
        level: 0,
        block: 0,
    };
    Move {
        goes,
        looked: Some(ino),
        target,
        spot,
    }
}

// A part of a path, as a name that is sought.
fn name_of(part: &[u8]) -> Name<'_>
    ensures { (result.hash ≡ hash_of part.now) × (result.bytes.now ≡ part.now) }
{
    Name {
        hash: name_hash::hash(part),
        bytes: part,
    }
}

// What the slots of a directory block, or of an inline directory, come to for a name.
fn scan(name: Name, bytes: &[u8], inline: bool) -> Result<Option<u32>, Stop>
    requires { length bytes.now ≡ 4096 }
    ensures value { in_slots (layout_of inline) bytes.now (wanted_in name.entry) ≡ sought_of result }
    ensures stop_value { IfErr result (λ stop. stop ≡ Stop.MalformedSlot) }
{
    let mut scan = Scan::default();
    dentry::slots_of(bytes, inline).scan_slots(&mut scan, name)
}

// A directory's inode came.
fn at_directory(kept: Kept, path: &[u8], ino: u32, name_at: u32, bytes: &[u8]) -> Move
    requires bytes_len { (length bytes.now ≡ 4096) × (name_at ≤ length path.now) × (length path.now ≤ 2048) }
    ensures by_index { (index : ℕ) (s : Seen) → let t = kept_in kept.entry in
        let q = question t path.now index in
        moved q bytes.now s result ≡ asking t came s (inode_then q ino (names_from path.now name_at) bytes.now) }
    ensures by_index_2 { (index : ℕ) → MoveIn path.now index bytes.now result }
{
    let spot = Spot {
        ino,
        name_at,
        level: 0,
        block: 0,
    };
    let i = inode::inode_of(bytes);
    if !inode::is_directory(i) {
        return ask_directory::go_to(spot, Goes::Stop(Stop::KindNotRead));
    }
    if i.size == 0 {
        return ask_directory::go_to(spot, Goes::Stop(Stop::NoName));
    }
    let at = name_at as usize;
    let end = path::part_end(path, at);
    let name = name_of(&path[at..end]);
    if inode::has_inline_dentry(i) {
        return match scan(name, bytes, true) {
            Ok(Some(child)) => enter(kept, child, end as u32 + 1),
            Ok(None) => ask_directory::go_to(spot, Goes::Stop(Stop::NoName)),
            Err(stop) => ask_directory::go_to(spot, Goes::Stop(stop)),
        };
    }
    if i.depth == 0 {
        return ask_directory::go_to(spot, Goes::Stop(Stop::NoName));
    }
    ask_directory::search(kept, bytes, spot, name.hash)
}

// The file's inode came.
fn at_file(kept: Kept, index: u32, ino: u32, name_at: u32, bytes: &[u8]) -> Move
    requires bytes_len { length bytes.now ≡ 4096 }
    ensures by_index { (path : List ℕ) (s : Seen) → length path < name_at → let t = kept_in kept.entry in
        let q = question t path index in
        moved q bytes.now s result ≡ asking t came s (inode_then q ino (names_from path name_at) bytes.now) }
    ensures by_index_2 { (path : List ℕ) → length path < name_at → MoveIn path index bytes.now result }
{
    let spot = Spot {
        ino,
        name_at,
        level: 0,
        block: 0,
    };
    let i = inode::inode_of(bytes);
    if !inode::is_regular(i) {
        return ask_directory::go_to(spot, Goes::Stop(Stop::KindNotRead));
    }
    if inode::is_past(i, index) {
        return ask_directory::go_to(spot, Goes::Stop(Stop::PastEnd));
    }
    let count = inode::count_in(i, index) as u32;
    if inode::has_inline_data(i) {
        return ask_directory::go_to(spot, Goes::Inline(count));
    }
    let f = kept.fetch_block(bytes, index);
    ask_directory::fetch_move(f, index, spot, count)
}

// A block of the directory at hand came.
fn at_slots(kept: Kept, path: &[u8], inode: &[u8], spot: Spot, bytes: &[u8]) -> Move
    requires inode_len { (length inode.now ≡ 4096) × (length bytes.now ≡ 4096) × (spot.name_at ≤ length path.now) × (length path.now ≤ 2048) }
    requires inode_value { (is_directory (inode_of inode.now) ≡ true) × (spot.level < 63) × (spot.block < 4) }
    ensures by_index { (index : ℕ) (s : Seen) → let t = kept_in kept.entry in
        let q = question t path.now index in
        moved q inode.now s result
        ≡ asking t came s (data_then q spot inode.now (names_from path.now spot.name_at) (held bytes.now)) }
    ensures by_index_2 { (index : ℕ) → MoveIn path.now index inode.now result }
{
    let at = spot.name_at as usize;
    let end = path::part_end(path, at);
    let name = name_of(&path[at..end]);
    match scan(name, bytes, false) {
        Ok(Some(child)) => enter(kept, child, end as u32 + 1),
        Ok(None) => {
            let next = Spot {
                block: spot.block + 1,
                ..spot
            };
            ask_directory::search(kept, inode, next, name.hash)
        }
        Err(stop) => ask_directory::go_to(spot, Goes::Stop(stop)),
    }
}

// A node on the way to a block came. That the spot is in place stays a clause here and below: where an inode comes it isn't known yet, so
// that a type with the fact would have to be taken apart there, which is no plainer.
fn at_way(
    kept: Kept,
    path: &[u8],
    index: u32,
    inode: &[u8],
    target: Target,
    spot: Spot,
    bytes: &[u8],
) -> Move
    requires inode_len { (length inode.now ≡ 4096) × (length bytes.now ≡ 4096) × (length path.now ≤ 2048) × (1 ≤ target.hop) × (target.hop < 4) }
    requires spot_in { SpotIn path.now index inode.now spot }
    ensures result_value { (s : Seen) → let t = kept_in kept.entry in
        let q = question t path.now index in
        moved q inode.now s result
        ≡ asking t came s (node_then q spot inode.now target.index target.hop bytes.now) }
    ensures move_in { MoveIn path.now index inode.now result }
{
    let f = kept.fetch_next(inode, target.index, target.hop, bytes);
    let at = spot.name_at as usize;
    if path.len() < at {
        let count = inode::count_in(inode::inode_of(inode), index) as u32;
        return ask_directory::fetch_move(f, target.index, spot, count);
    }
    let fetched = ask_directory::fetch_move(f, target.index, spot, 0);
    let goes = fetched.goes;
    if !ask_directory::is_empty(goes) {
        return fetched;
    }
    let end = path::part_end(path, at);
    let hash = name_hash::hash(&path[at..end]);
    let next = Spot {
        block: spot.block + 1,
        ..spot
    };
    ask_directory::search(kept, inode, next, hash)
}

// The table block of the target came.
pub fn table_came(v: checkpoint::Volume, target: Target, spot: Spot, bytes: &[u8]) -> Move
    requires { length bytes.now ≡ 4096 }
    ensures by_index { (first journal path : List ℕ) (index : ℕ) (inode : List ℕ) (s : Seen) → let t = keeping v first journal in
        let q = question t path index in
        moved q inode s result
        ≡ asking t came s (and_then (at_entry (bounds_of v) target.number spot.ino target.place (entry_in bytes.now target.number))
        (node_then q spot inode target.index target.hop)) }
    ensures target_value { (result.target ≡ target) × (result.spot ≡ spot) × IsNode result.goes }
{
    let wants = ask_node::from_entry(v, nat::table_entry(bytes, target.number));
    let goes = ask_directory::goes_on(0, wants);
    Move {
        goes,
        looked: None,
        target,
        spot,
    }
}

// The target's block came: an inode, which is at hand from now on, or a node on the way to a block of the one at hand.
pub fn node_came<'a>(
    kept: Kept<'a>,
    path: &'a [u8],
    index: u32,
    inode: &'a [u8],
    target: Target,
    table_inode: u32,
    spot: Spot,
    bytes: &[u8],
) -> Move
    requires inode_len { (length inode.now ≡ 4096) × (length bytes.now ≡ 4096) × (length path.now ≤ 2048) × (target.hop < 4) }
    requires spot_in { (target.hop ≡ 0 → ⊥) → SpotIn path.now index inode.now spot }
    ensures result_value { (s : Seen) → let t = kept_in kept.entry in
        let q = question t path.now index in
        moved q (choose (eqb target.hop 0) bytes.now inode.now) s result
        ≡ asking t came s (and_then (at_block target.number spot.ino target.place table_inode bytes.now)
        (node_then q spot inode.now target.index target.hop)) }
    ensures move_in { MoveIn path.now index (choose (eqb target.hop 0) bytes.now inode.now) result }
{
    if !node::belongs(bytes, target.number, spot.ino, target.place, table_inode) {
        return ask_directory::go_to(spot, Goes::Stop(Stop::ForeignNode));
    }
    if target.hop != 0 {
        return at_way(kept, path, index, inode, target, spot, bytes);
    }
    if path.len() < spot.name_at as usize {
        return at_file(kept, index, spot.ino, spot.name_at, bytes);
    }
    at_directory(kept, path, spot.ino, spot.name_at, bytes)
}

// A data block came: the file's, which is the answer, or one of the directory's.
pub fn data_came<'a>(
    kept: Kept<'a>,
    path: &'a [u8],
    index: u32,
    inode: &'a [u8],
    spot: Spot,
    bytes: &[u8],
) -> Move
    requires inode_len { (length inode.now ≡ 4096) × (length bytes.now ≡ 4096) × (length path.now ≤ 2048) }
    requires spot_in { SpotIn path.now index inode.now spot }
    ensures result_value { (s : Seen) → let t = kept_in kept.entry in
        let q = question t path.now index in
        moved q (choose (ltb (length path.now) spot.name_at) bytes.now inode.now) s result
        ≡ asking t came s (data_then q spot inode.now (names_from path.now spot.name_at) (held bytes.now)) }
    ensures move_in { MoveIn path.now index (choose (ltb (length path.now) spot.name_at) bytes.now inode.now) result }
{
    if path.len() < spot.name_at as usize {
        let count = inode::count_in(inode::inode_of(inode), index) as u32;
        return ask_directory::go_to(spot, Goes::Full(count));
    }
    at_slots(kept, path, inode, spot, bytes)
}
