// What a host does with a cache: it pulls a block and keeps the image and the lists, and when a new image comes it compares. If
// that says "same", the pull on the new image gives what was kept; here that pull is made, and the contract says so.
#![tactic(auto)]

ghost use Rattle.pull.specs.Pull.{lending};
ghost use Rattle.pull_again.specs.Demand.{PulledAgain};

// The first pull, what Compare says, and the second pull.
#[derive(Clone, Copy)]
pub struct Again {
    pub first: pull::Pulled,
    pub compared: compare::Compared,
    pub second: pull::Pulled,
}

// The memory of each pull is lent as `pull` takes it, by the C interface.
pub fn pull_again(
    kept: &[u8],
    fresh: &[u8],
    path: &[u8],
    index: u32,
    block: &mut [u8],
    nodes: &mut [u8],
    blocks: &mut [u8],
    fresh_block: &mut [u8],
    fresh_nodes: &mut [u8],
    fresh_blocks: &mut [u8],
) -> Again
    ensures { PulledAgain kept.now fresh.now path.now index
        (lending block.old nodes.old blocks.old)
        (lending fresh_block.old fresh_nodes.old fresh_blocks.old)
        (lending block.new nodes.new blocks.new)
        (lending fresh_block.new fresh_nodes.new fresh_blocks.new) result }
{
    let first = pull::pull(kept, path, index, block, nodes, blocks);
    let compared = compare::compare(
        kept,
        fresh,
        nodes,
        first.node_count,
        blocks,
        first.block_count,
    );
    let second = pull::pull(fresh, path, index, fresh_block, fresh_nodes, fresh_blocks);
    Again {
        first,
        compared,
        second,
    }
}
