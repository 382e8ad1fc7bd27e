// A path looked up: its names one after another, each in the directory that the one before it led to.
// What it means is in specs/: Lookup.
#![tactic(auto)]

ghost use Rattle.std.specs.Prelude.{◌<◌};
ghost use Rattle.checkpoint.specs.OpenImage.{card_in};
ghost use Rattle.walk.specs.Walk.{Walked, Fits};
ghost use Rattle.walk.specs.Lent.{view_in, lent, SameLent};
ghost use Rattle.node.specs.Node.{bounds_of};
ghost use Rattle.directory.specs.Find.{entry_of};
ghost use Rattle.path_lookup.specs.Lookup.{at_directory, directory_walk, path_walk};

use answer::Stop;
use checkpoint::OpenImage;
use dentry::Name;
use directory::Directory;
use node::File;
use walk::SeenLists;

// The inode number of the root directory.
const ROOT_INO: u32 = 3;

// The inode number of a name in the directory of inode `ino`, which is the block `at`.
fn find_from_inode(
    card: OpenImage,
    seen: &mut SeenLists,
    ino: u32,
    at: u32,
    name: &[u8],
) -> Result<u32, Stop>
    requires fits { Fits (view_in card) (at_directory (bounds_of card.volume) name.now ino ((card_in card).block at)) (lent seen.old) }
    requires at_bound { at < (card_in card).blocks }
    ensures walked { Walked (view_in card.entry)
        (at_directory (bounds_of card.entry.volume) name.now ino ((card_in card.entry).block at))
        (lent seen.old) (entry_of result) (lent seen.new) }
    ensures same { SameLent seen.old seen.new }
{
    let i = inode::inode_of(field::block_at(card.image, at));
    if !inode::is_directory(i) {
        return Err(Stop::KindNotRead);
    }
    if i.size == 0 {
        return Err(Stop::NoName);
    }
    let file = File {
        card,
        ino,
        inode: at,
        addresses: inode::addresses_in(i),
    };
    let directory = Directory {
        file,
        inline: inode::has_inline_dentry(i),
        dir_level: inode::dir_level_in(i),
        depth: inode::levels_in(i),
    };
    let hash = name_hash::hash(name);
    directory.find(seen, Name { hash, bytes: name })
}

// The inode number of a name in the directory of an inode number.
fn find_in(card: OpenImage, seen: &mut SeenLists, ino: u32, name: &[u8]) -> Result<u32, Stop>
    requires { Fits (view_in card) (directory_walk (bounds_of card.volume) name.now ino) (lent seen.old) }
    ensures walked { Walked (view_in card.entry) (directory_walk (bounds_of card.entry.volume) name.now ino)
        (lent seen.old) (entry_of result) (lent seen.new) }
    ensures same { SameLent seen.old seen.new }
{
    let at = node::node_step(card, seen, ino, ino, 0)?;
    find_from_inode(card, seen, ino, at, name)
}

// The inode number that a path leads to. Each of its names is a part of the path's bytes.
pub fn find_path(card: OpenImage, seen: &mut SeenLists, path: &[u8]) -> Result<u32, Stop>
    requires fits { Fits (view_in card) (path_walk (bounds_of card.volume) path.now) (lent seen.old) }
    ensures walked { Walked (view_in card.entry) (path_walk (bounds_of card.entry.volume) path.now)
        (lent seen.old) (entry_of result) (lent seen.new) }
    ensures same { SameLent seen.old seen.new }
{
    let mut ino = ROOT_INO;
    let mut start = 0;
    loop {
        let end = path::part_end(path, start);
        ino = find_in(card, seen, ino, &path[start..end])?;
        if end == path.len() {
            return Ok(ino);
        }
        start = end + 1;
    }
}
