// A node of a file, and the block of an index of a file, for a reader that is fed one block at a time: what it wants next.
// What each means is in specs/: Wants, Fetch.
#![tactic(auto)]

ghost use Rattle.std.specs.Prelude.{◌≡◌, ◌<◌, ◌≤◌, length};
ghost use Rattle.place.specs.Way.{in_array};
ghost use Rattle.node.specs.Node.{bounds_of};
ghost use Rattle.ask_node.specs.Wants.{kept_in, entry_wants, seek_wants, data_wants};
ghost use Rattle.ask_node.specs.Fetch.{way_to, steps_in, WayIn, no_node, follow_fetch, block_fetch, next_fetch, HopIn};

mod kept;

use answer::Stop;
pub use kept::Kept;

// What is wanted next: a table block, a node's block (with the inode that the table has for it), a data block; or that there is none, or
// what ends the walk.
#[derive(Clone, Copy)]
pub enum Wants {
    Table(u32),
    Node(u32, u32),
    Data(u32),
    Hole,
    Stop(Stop),
}

// What is wanted next on the way to a block, the node that is looked up for it, if one is, for which place, and at which hop of the way.
#[derive(Clone, Copy)]
pub struct Fetch {
    pub wants: Wants,
    pub looked: Option<u32>,
    pub place: u32,
    pub hop: u32,
}

// A node, by what the table or the journal has for it.
#[tactic(auto, unfolding(crate::specs::Wants::entry_wants))]
pub fn from_entry(v: checkpoint::Volume, entry: nat::Entry) -> Wants
    ensures { result ≡ entry_wants (bounds_of v) entry.inode entry.address }
{
    if entry.address == 0 {
        return Wants::Stop(Stop::NoNode);
    }
    if node::in_main(v, entry.address) {
        return Wants::Node(entry.address, entry.inode);
    }
    Wants::Stop(Stop::NodeOutside)
}

// A data block by its address.
#[tactic(auto, unfolding(crate::specs::Wants::data_wants))]
fn from_address(v: checkpoint::Volume, address: u32) -> Wants
    ensures { result ≡ data_wants (bounds_of v) address }
{
    if node::is_hole(address) {
        return Wants::Hole;
    }
    if node::in_main(v, address) {
        return Wants::Data(address);
    }
    Wants::Stop(Stop::DataOutside)
}

fn no_node(wants: Wants) -> Fetch
    ensures { result ≡ no_node wants }
{
    Fetch {
        wants,
        looked: None,
        place: 0,
        hop: 0,
    }
}

// The way to a block of the file of an inode.
fn way_to(inode: &[u8], index: u32) -> place::Way
    requires { length inode.now ≡ 4096 }
    ensures { result ≡ in_array (way_to inode.now index) }
{
    let i = inode::inode_of(inode);
    place::find_way(inode::addresses_in(i), index)
}

impl Kept<'_> {
    // A node by its number: the journal has its entry, or its table block is wanted.
    pub fn seek(self, number: u32) -> Wants
        ensures { result ≡ seek_wants (kept_in self.entry) number }
    {
        let v = self.volume;
        if !nat::in_range(v, number) {
            return Wants::Stop(Stop::NoNode);
        }
        match nat::journal_entry(self.journal, number) {
            Some(entry) => from_entry(v, entry),
            None => Wants::Table(nat::table_address(self.first, v, number / 455)),
        }
    }

    // From a number, at a hop of the way, to what it names: the data block behind the way's end, or a node.
    fn follow(self, way: place::Way, hop: u32, number: u32) -> Fetch
        requires way_in { WayIn way }
        ensures value { result ≡ follow_fetch (kept_in self.entry) (steps_in way) hop number }
        ensures hop_in { HopIn result }
    {
        if way.count <= hop {
            return no_node(from_address(self.volume, number));
        }
        if number == 0 {
            return no_node(Wants::Hole);
        }
        let steps = way.steps;
        let at = hop as usize;
        let step = steps[at];
        let wants = self.seek(number);
        Fetch {
            wants,
            looked: Some(number),
            place: step.number,
            hop,
        }
    }

    // The block of an index of the file of an inode.
    pub fn fetch_block(self, inode: &[u8], index: u32) -> Fetch
        requires inode_len { length inode.now ≡ 4096 }
        ensures value { result ≡ block_fetch (kept_in self.entry) inode.now index }
        ensures hop_in { HopIn result }
    {
        let way = way_to(inode, index);
        if way.count == 0 {
            return no_node(Wants::Hole);
        }
        let steps = way.steps;
        let slot = steps[0].slot as usize;
        if way.count == 1 {
            return no_node(from_address(self.volume, field::get32(inode, 360 + 4 * slot)));
        }
        let number = field::get32(inode, 4052 + 4 * slot);
        self.follow(way, 1, number)
    }

    // The node at a hop of the way came: what its slot leads to.
    pub fn fetch_next(self, inode: &[u8], index: u32, hop: u32, bytes: &[u8]) -> Fetch
        requires inode_len { (length inode.now ≡ 4096) × (length bytes.now ≡ 4096) × (1 ≤ hop) × (hop < 4) }
        ensures value { result ≡ next_fetch (kept_in self.entry) inode.now index hop bytes.now }
        ensures hop_in { HopIn result }
    {
        let way = way_to(inode, index);
        let steps = way.steps;
        let at = hop as usize;
        let slot = steps[at].slot as usize;
        let number = field::get32(bytes, 4 * slot);
        self.follow(way, hop + 1, number)
    }
}
