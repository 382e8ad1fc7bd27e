// What a host does that can't keep whole old images: it keeps a file for a block, and when a new image comes it compares the file with
// it. If that says "same", the pull on the new image gives what the file holds; here that pull is made, and the contract says so.
#![tactic(auto)]

ghost use Rattle.std.specs.Prelude.{◌≡◌, ◌≤◌, length, take};
ghost use Rattle.pull.specs.Pull.{lending};
ghost use Rattle.keep_compare.specs.Compare.{keep_compared};
ghost use Rattle.keep_again.specs.Demand.{KeptAgain};

// What the writer says, what the comparison says, and the pull on the new image.
#[derive(Clone, Copy)]
pub struct Again {
    pub kept: keep::Written,
    pub compared: compare::Compared,
    pub second: pull::Pulled,
}

// The file at the front of a room.
fn compare_file(room: &[u8], end: usize, fresh: &[u8]) -> compare::Compared
    requires { end ≤ length room.now }
    ensures { result ≡ keep_compared (take end room.now) fresh.now }
{
    keep_compare::keep_compare(&room[..end], fresh)
}

pub fn keep_again(
    image: &[u8],
    fresh: &[u8],
    path: &[u8],
    index: u32,
    room: &mut [u8],
    block: &mut [u8],
    nodes: &mut [u8],
    blocks: &mut [u8],
) -> Again
    ensures { KeptAgain image.now fresh.now path.now index
        room.old room.new
        (lending block.old nodes.old blocks.old)
        (lending block.new nodes.new blocks.new) result }
{
    let kept = keep::keep(image, path, index, room);
    let compared = compare_file(room, kept.length as usize, fresh);
    let second = pull::pull(fresh, path, index, block, nodes, blocks);
    Again {
        kept,
        compared,
        second,
    }
}
