// The hash levels of a directory: how many buckets they have, and where each starts.
// What each means is in specs/: Level, Table.
#![tactic(auto)]

ghost use Rattle.std.specs.Prelude.{◌≡◌, ◌<◌};
ghost use Rattle.hash_level.specs.Level.{buckets_of, blocks_of, first_of, level_of};

mod table;

use table::FIRST_BLOCKS;

// What a hash level has for a hash: the first block of its bucket, and how many blocks that has.
#[derive(Clone, Copy)]
pub struct Level {
    pub count: usize,
    pub bucket: usize,
}

// The first block of a hash level, by the table of the directory's level. A static stays where it is: of a constant, the whole would be
// built on the stack for each search.
pub fn first_block(dir_level: usize, level: usize) -> usize
    requires { (dir_level < 31) × (level < 63) }
    ensures { result ≡ first_of dir_level level }
{
    FIRST_BLOCKS[dir_level][level] as usize
}

fn buckets_in(sum: usize) -> usize
    ensures { result ≡ buckets_of sum }
{
    if sum < 31 {
        return 1usize << (sum as u32);
    }
    1073741824
}

fn blocks_in(level: usize) -> usize
    ensures { result ≡ blocks_of level }
{
    if level < 31 {
        return 2;
    }
    4
}

// The bucket of a hash in a level.
pub fn level_at(dir_level: usize, level: usize, hash: u32) -> Level
    requires { (dir_level < 31) × (level < 63) }
    ensures { result ≡ level_of dir_level level hash }
{
    let sum = level + dir_level;
    let buckets = buckets_in(sum);
    let count = blocks_in(level);
    let bucket = first_block(dir_level, level) + (hash as usize) % buckets * count;
    Level { count, bucket }
}
