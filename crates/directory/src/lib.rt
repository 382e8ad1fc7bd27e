// A name sought in a directory: the nested search over hash levels, blocks and slots.
// What it means is in specs/: Find.
#![tactic(auto)]

ghost use Rattle.checkpoint.specs.OpenImage.{card_in};
ghost use Rattle.walk.specs.Walk.{Walked, Fits};
ghost use Rattle.walk.specs.Lent.{view_in, lent, SameLent};
ghost use Rattle.node.specs.Found.{data_of, DataIn};
ghost use Rattle.dentry.specs.Slot.{wanted_in};
ghost use Rattle.directory.specs.Find.{fetch_walk, directory_of, levels_walk, find_walk, entry_of};

use answer::Stop;
use dentry::{Name, Scan};
use walk::SeenLists;

mod dir;

pub use dir::Directory;

impl Directory<'_> {
    // The block of an index of a directory. Past the last index there is none; an inline directory has its inode's own at index 0, and no
    // other.
    fn fetch(self, seen: &mut SeenLists, index: usize) -> Result<Option<u32>, Stop>
        requires { Fits (view_in self.file.card) (fetch_walk (directory_of self) index) (lent seen.old) }
        ensures walked { Walked (view_in self.entry.file.card) (fetch_walk (directory_of self.entry) index)
            (lent seen.old) (data_of (card_in self.entry.file.card) result) (lent seen.new) }
        ensures same { SameLent seen.old seen.new }
        ensures data_in { DataIn (card_in self.entry.file.card) result }
    {
        let file = self.file;
        if self.inline {
            return Ok(if index == 0 { Some(file.inode) } else { None });
        }
        let last = file.addresses as usize + 1057052515;
        if last < index {
            return Ok(None);
        }
        file.data_block(seen, index as u32)
    }

    // The name sought in a directory: hash levels 0 to depth - 1, in each the blocks of the hash's bucket in order, in each block its slots
    // rising, until the first match or the first answer that ends the walk. Kept by a rule of the project: the search is one nested loop, so the
    // turns of `scan_slots` stand here too.
    fn find_by(self, seen: &mut SeenLists, name: Name) -> Result<u32, Stop>
        requires { Fits (view_in self.file.card) (levels_walk (directory_of self) (wanted_in name) self.depth 0) (lent seen.old) }
        ensures walked { Walked (view_in self.entry.file.card)
            (levels_walk (directory_of self.entry) (wanted_in name.entry) self.entry.depth 0)
            (lent seen.old) (entry_of result) (lent seen.new) }
        ensures same { SameLent seen.old seen.new }
    {
        'search: {
            'levels: for level in 0..self.depth {
                let here = hash_level::level_at(self.dir_level, level, name.hash);
                'bucket: for k in 0..here.count {
                    let Some(at) = self.fetch(seen, here.bucket + k)? else {
                        continue 'bucket;
                    };
                    let block = field::block_at(self.file.card.image, at);
                    let slots = dentry::slots_of(block, self.inline);
                    let mut scan = Scan::default();
                    'slots: while scan.slot < slots.layout.slots {
                        if let Some(ino) = slots.take_turn(&mut scan, name)? {
                            break 'search Ok(ino);
                        }
                    }
                }
            }
            Err(Stop::NoName)
        }
    }

    // The same for an inline directory too, which is searched as one hash level.
    pub fn find(self, seen: &mut SeenLists, name: Name) -> Result<u32, Stop>
        requires { Fits (view_in self.file.card) (find_walk (directory_of self) (wanted_in name) self.depth) (lent seen.old) }
        ensures walked { Walked (view_in self.entry.file.card)
            (find_walk (directory_of self.entry) (wanted_in name.entry) self.entry.depth)
            (lent seen.old) (entry_of result) (lent seen.new) }
        ensures same { SameLent seen.old seen.new }
    {
        self.find_by(seen, name)
    }
}
