// The scan of a directory block, or of an inline directory, alone, for tests; it is not in the library that the rig links.
// What it means is in specs/: Scanned.
#![tactic(auto)]

ghost use Rattle.std.specs.Prelude.{◌≡◌, ◌≤◌, drop, IfErr};
ghost use Rattle.inode.specs.Inode.{inline_start};
ghost use Rattle.dentry.specs.Slot.{layout_of, block_layout, inline_layout};
ghost use Rattle.dentry.specs.Scan.{turns_most, sought_of};
ghost use Rattle.scan_export.specs.Scanned.{crossing, seeks, scanned};

use answer::{Refusal, Stop};
use dentry::{Name, Scan};

// A scan's numbers, as they cross to C.
#[repr(C)]
#[derive(Clone, Copy)]
pub struct Scanned {
    pub answer: u32,
    pub inode: u32,
    pub turns: u32,
}

// What a scan came to, as it crosses.
fn crossing(found: Result<Option<u32>, Stop>, turns: u32) -> Scanned
    requires { IfErr found (λ stop. stop ≡ Stop.MalformedSlot) }
    ensures { result ≡ crossing (sought_of found) turns }
{
    let (answer, inode) = match found {
        Ok(Some(inode)) => (answer::DATA, inode),
        Ok(None) => (Stop::NoName.number(), 0),
        Err(stop) => (stop.number(), 0),
    };
    Scanned {
        answer,
        inode,
        turns,
    }
}

fn scan(block: &[u8], inline: bool, bytes: &[u8]) -> Scanned
    ensures value { result ≡ scanned (layout_of inline) block.now bytes.now }
    ensures turns_bound { result.turns ≤ turns_most (layout_of inline) (drop (layout_of inline).start block.now) (seeks bytes.now) }
{
    if !((block.len() == 4096) & name_hash::is_name(bytes)) {
        return Scanned {
            answer: Refusal::OutOfShape.number(),
            inode: 0,
            turns: 0,
        };
    }
    let hash = name_hash::hash(bytes);
    let mut scan = Scan::default();
    let found = dentry::slots_of(block, inline).scan_slots(&mut scan, Name { hash, bytes });
    let turns = scan.turns as u32;
    crossing(found, turns)
}

// The slots of a directory block.
#[unsafe(no_mangle)]
pub extern "C" fn scan_export_scan(block: &[u8], name: &[u8]) -> Scanned
    ensures value { result ≡ scanned block_layout block.now name.now }
    ensures turns_bound { result.turns ≤ turns_most block_layout block.now (seeks name.now) }
{
    scan(block, false, name)
}

// The slots of an inline directory, in the bytes of its inode.
#[unsafe(no_mangle)]
pub extern "C" fn scan_export_scan_inline(inode: &[u8], name: &[u8]) -> Scanned
    ensures value { result ≡ scanned inline_layout inode.now name.now }
    ensures turns_bound { result.turns ≤ turns_most inline_layout (drop inline_start inode.now) (seeks name.now) }
{
    scan(inode, true, name)
}
