// Opening a card for a reader that is fed one block at a time: a block comes, and it is said where opening goes.
// What each means is in specs/: Came.
#![tactic(auto)]

ghost use Rattle.std.specs.Prelude.{◌≡◌, true, List, ℕ, ◌≤◌, length, drop, None};
ghost use Rattle.field.specs.Choice.{choose};
ghost use Rattle.superblock.specs.Superblock.{fields_pass};
ghost use Rattle.superblock.specs.Areas.{accepted};
ghost use Rattle.checkpoint.specs.Pack.{second_pack};
ghost use Rattle.checkpoint.specs.Volume.{journal_readable};
ghost use Rattle.asking.specs.Asking.{Asking};
ghost use Rattle.asking.specs.Open.{Opens, tried_by, first_copy_after, second_copy_after, areas_ask, one_first, one_last};
ghost use Rattle.asking.specs.Open.{two_first, two_last, choose_pack, journal_ask};
ghost use Rattle.asking.specs.Pull.{Ending};
ghost use Rattle.ask_open.specs.Came.{open_goes, first_after, AreasFit, PackFits, IfPassed, OpeningIn};

use answer::Refusal;
use checkpoint::Volume;
use superblock::{Areas, Superblock};

// What a block is asked for: the first copy of the superblock or the second, a pack's first or last block (of the second pack with whether
// the first one passed), the journal's block. Or why the card is refused.
#[derive(Clone, Copy)]
pub enum Stage {
    FirstCopy,
    SecondCopy,
    OneFirst,
    OneLast,
    TwoFirst(bool),
    TwoLast(bool),
    Journal,
    Refused(Refusal),
}

// Which block is kept: none, the one that came, as the first pack's or as the second one's; or the second pack's, as the chosen one's.
#[derive(Clone, Copy)]
pub enum Keep {
    Nothing,
    First,
    Second,
    SecondAsFirst,
}

// Where opening goes: the stage, the block that is asked for, what is known of the volume, and which block is kept.
#[derive(Clone, Copy)]
pub struct Opening {
    pub stage: Stage,
    pub block: u32,
    pub volume: Volume,
    pub keep: Keep,
}

// A volume of which only the areas are known yet.
fn with_areas(areas: Areas) -> Volume
    ensures { result.areas ≡ areas }
{
    Volume {
        areas,
        pack: 0,
        total: 0,
        flags: 0,
        nat_map: 0,
        journal_block: 0,
        journal_at: 0,
    }
}

// No volume yet.
pub fn no_volume() -> Volume {
    with_areas(Areas {
        checkpoint: 0,
        sit: 0,
        sit_segments: 0,
        nat: 0,
        nat_segments: 0,
        ssa: 0,
        ssa_segments: 0,
        main: 0,
        main_segments: 0,
        main_end: 0,
    })
}

fn refuse(refusal: Refusal) -> Opening
    ensures { (result.stage ≡ Stage.Refused refusal) × (result.keep ≡ Keep.Nothing) }
{
    Opening {
        stage: Stage::Refused(refusal),
        block: 0,
        volume: no_volume(),
        keep: Keep::Nothing,
    }
}

// A copy passed: its areas, unless the card is refused.
fn copy_passed(blocks: u32, s: Superblock) -> Opening
    requires { fields_pass blocks s ≡ true }
    ensures result_value { (k : Opens → Asking Ending) (first second bytes : List ℕ) → open_goes k blocks first second bytes result ≡ areas_ask k (accepted s) }
    ensures by_index { (first second bytes : List ℕ) → OpeningIn first second bytes result }
{
    match superblock::accept(s) {
        Ok(areas) => Opening {
            stage: Stage::OneFirst,
            block: areas.checkpoint,
            volume: with_areas(areas),
            keep: Keep::Nothing,
        },
        Err(refusal) => refuse(refusal),
    }
}

// The copy in block 0 came, or, if that one failed, in block 1.
pub fn copy_came(blocks: u32, second_copy: bool, bytes: &[u8]) -> Opening
    requires { length bytes.now ≡ 4096 }
    ensures result_value { (k : Opens → Asking Ending) (first second : List ℕ) → open_goes k blocks first second bytes.now result
        ≡ choose second_copy (second_copy_after k blocks bytes.now) (first_copy_after k blocks bytes.now) }
    ensures by_index { (first second : List ℕ) → OpeningIn first second bytes.now result }
{
    match superblock::try_copy(bytes, blocks as u64) {
        Some(s) => copy_passed(blocks, s),
        None => {
            if second_copy {
                return refuse(Refusal::NoSuperblock);
            }
            Opening {
                stage: Stage::SecondCopy,
                block: 1,
                volume: no_volume(),
                keep: Keep::Nothing,
            }
        }
    }
}

// The second pack starts 512 blocks on. That areas and blocks fit stays a clause here and below: they are those of C's struct, so that a
// type with the fact would be built and taken apart at each step, which is no plainer.
fn second_pack(areas: Areas) -> u32
    requires { AreasFit areas }
    ensures { result ≡ second_pack areas.checkpoint }
{
    areas.checkpoint + 512
}

// A pack is chosen, by its first block: its journal's block, unless the pack is unreadable.
fn choose_pack(areas: Areas, start: u32, first: &[u8], keep: Keep) -> Opening
    requires areas_fit { AreasFit areas × (start ≤ second_pack areas.checkpoint) }
    requires first_len { (length first.now ≡ 4096) × PackFits first.now }
    ensures result_value { (k : Opens → Asking Ending) (blocks : ℕ) (one second bytes : List ℕ) → first_after keep one second bytes ≡ first.now
        → open_goes k blocks one second bytes result ≡ journal_ask k areas start first.now }
    ensures by_index { (one second bytes : List ℕ) → OpeningIn one second bytes result }
{
    let cp = checkpoint::checkpoint_of(first);
    if !checkpoint::header_readable(areas, cp) {
        return refuse(Refusal::Unreadable);
    }
    let volume = checkpoint::volume_of(areas, start, cp);
    Opening {
        stage: Stage::Journal,
        block: volume.journal_block,
        volume,
        keep,
    }
}

// The second pack doesn't pass: the first one is chosen, if it does. Its bytes stay a reader's whether it passed or not (C's fixed memory):
// so a flag stands beside them, and no Option.
fn choose_first(areas: Areas, passed: bool, first: &[u8]) -> Opening
    requires { AreasFit areas × (length first.now ≡ 4096) × IfPassed passed first.now }
    ensures result_value { (k : Opens → Asking Ending) (blocks : ℕ) (second bytes : List ℕ)
        → open_goes k blocks first.now second bytes result ≡ choose_pack k areas (tried_by passed first.now) None }
    ensures by_index { (second bytes : List ℕ) → OpeningIn first.now second bytes result }
{
    if !passed {
        return refuse(Refusal::NoCheckpoint);
    }
    choose_pack(areas, areas.checkpoint, first, Keep::Nothing)
}

// The first pack's first block came.
pub fn one_first_came(v: Volume, bytes: &[u8]) -> Opening
    requires { AreasFit v.areas × (length bytes.now ≡ 4096) }
    ensures result_value { (k : Opens → Asking Ending) (blocks : ℕ) (first second : List ℕ)
        → open_goes k blocks first second bytes.now result ≡ one_first k v.areas bytes.now }
    ensures by_index { (first second : List ℕ) → OpeningIn first second bytes.now result }
{
    let areas = v.areas;
    let cp = checkpoint::checkpoint_of(bytes);
    if checkpoint::first_passes(bytes, cp) {
        return Opening {
            stage: Stage::OneLast,
            block: areas.checkpoint + (cp.cp_pack_total_block_count - 1),
            volume: v,
            keep: Keep::First,
        };
    }
    Opening {
        stage: Stage::TwoFirst(false),
        block: second_pack(areas),
        volume: v,
        keep: Keep::Nothing,
    }
}

// Its last block came.
pub fn one_last_came<'a>(v: Volume, first: &'a [u8], bytes: &[u8]) -> Opening
    requires areas_fit { AreasFit v.areas × PackFits first.now }
    requires first_len { (length first.now ≡ 4096) × (length bytes.now ≡ 4096) }
    ensures result_value { (k : Opens → Asking Ending) (blocks : ℕ) (second : List ℕ)
        → open_goes k blocks first.now second bytes.now result ≡ one_last k v.areas first.now bytes.now }
    ensures by_index { (second : List ℕ) → OpeningIn first.now second bytes.now result }
{
    let cp = checkpoint::checkpoint_of(first);
    let passed = checkpoint::last_passes(bytes, cp.checkpoint_ver);
    let areas = v.areas;
    Opening {
        stage: Stage::TwoFirst(passed),
        block: second_pack(areas),
        volume: v,
        keep: Keep::Nothing,
    }
}

// The second pack's first block came.
pub fn two_first_came<'a>(v: Volume, passed: bool, first: &'a [u8], bytes: &[u8]) -> Opening
    requires areas_fit { AreasFit v.areas × IfPassed passed first.now }
    requires first_len { (length first.now ≡ 4096) × (length bytes.now ≡ 4096) }
    ensures result_value { (k : Opens → Asking Ending) (blocks : ℕ) (second : List ℕ)
        → open_goes k blocks first.now second bytes.now result
        ≡ two_first k v.areas (tried_by passed first.now) bytes.now }
    ensures by_index { (second : List ℕ) → OpeningIn first.now second bytes.now result }
{
    let areas = v.areas;
    let cp = checkpoint::checkpoint_of(bytes);
    if !checkpoint::first_passes(bytes, cp) {
        return choose_first(areas, passed, first);
    }
    Opening {
        stage: Stage::TwoLast(passed),
        block: second_pack(areas) + (cp.cp_pack_total_block_count - 1),
        volume: v,
        keep: Keep::Second,
    }
}

// Its last block came: which pack is chosen.
pub fn two_last_came<'a>(
    v: Volume,
    passed: bool,
    first: &'a [u8],
    second: &'a [u8],
    bytes: &[u8],
) -> Opening
    requires areas_fit { AreasFit v.areas × IfPassed passed first.now × PackFits second.now }
    requires first_len { (length first.now ≡ 4096) × (length second.now ≡ 4096) × (length bytes.now ≡ 4096) }
    ensures result_value { (k : Opens → Asking Ending) (blocks : ℕ)
        → open_goes k blocks first.now second.now bytes.now result
        ≡ two_last k v.areas (tried_by passed first.now) second.now bytes.now }
    ensures opening_in { OpeningIn first.now second.now bytes.now result }
{
    let areas = v.areas;
    let two = checkpoint::checkpoint_of(second);
    if !checkpoint::last_passes(bytes, two.checkpoint_ver) {
        return choose_first(areas, passed, first);
    }
    let one = checkpoint::checkpoint_of(first);
    if passed & !checkpoint::is_newer(one, two) {
        return choose_first(areas, passed, first);
    }
    let start = second_pack(areas);
    choose_pack(areas, start, second, Keep::SecondAsFirst)
}

// Whether the journal's block, which came, has a readable one.
pub fn journal_readable(v: Volume, bytes: &[u8]) -> bool
    requires { (length bytes.now ≡ 4096) × (v.journal_at ≤ 3584) }
    ensures { result ≡ journal_readable (drop v.journal_at bytes.now) }
{
    let at = v.journal_at as usize;
    checkpoint::journal_readable(&bytes[at..])
}
