// A node of a file, and the data block of an index of a file.
// What each means is in specs/: Node, Block, Found, Leaf.
#![tactic(auto)]

ghost use Rattle.std.specs.Prelude.{◌≡◌, ◌+◌, ◌≤◌, length, None, Ok, OnErr};
ghost use Rattle.place.specs.Place.{SlotsIn};
ghost use Rattle.checkpoint.specs.OpenImage.{card_in};
ghost use Rattle.walk.specs.Walk.{onward, Walked, Fits};
ghost use Rattle.walk.specs.Lent.{view_in, lent, SameLent};
ghost use Rattle.node.specs.Node.{bounds_of, in_main, belongs, node_walk};
ghost use Rattle.node.specs.Block.{is_hole, data_walk};
ghost use Rattle.node.specs.Found.{found_of, FoundIn, data_of, DataIn, WayIn, file_block_walk};
ghost use Rattle.node.specs.Leaf.{at_leaf, address_at, addresses_end, file_way_walk, leaf_found, file_leaf_walk, FoundLeaf, Keeps};

use answer::Stop;
use checkpoint::OpenImage;
use walk::SeenLists;

mod file;

pub use file::File;

// A leaf, the node that holds addresses of a file's blocks, or that there is none, or what the walk to it stopped with.
// Where in its bytes the address of an index stands, and where its addresses end.
#[derive(Clone, Copy)]
pub struct Leaf {
    pub node: Result<Option<u32>, Stop>,
    pub at: u32,
    pub end: u32,
}

// Whether an address lies in the main area.
#[tactic(auto, unfolding(crate::specs::Node::in_main))]
pub fn in_main(v: checkpoint::Volume, address: u32) -> bool
    ensures { result ≡ in_main (bounds_of v) address }
{
    let areas = v.areas;
    (areas.main <= address) & (address < areas.main_end)
}

// Whether a block ends with the numbers of the node that is asked for.
#[tactic(auto, unfolding(crate::specs::Node::belongs))]
pub fn belongs(block: &[u8], number: u32, ino: u32, place: u32, table_inode: u32) -> bool
    requires { length block.now ≡ 4096 }
    ensures { result ≡ belongs number ino place table_inode block.now }
{
    let own = field::get32(block, 4072);
    let file = field::get32(block, 4076);
    let flag = field::get32(block, 4080);
    (own == number) & (file == ino) & (table_inode == ino) & (flag / 8 == place)
}

// The block of a node of a file: the node is listed and looked up, then its block is listed and read.
pub fn node_step(
    card: OpenImage,
    seen: &mut SeenLists,
    number: u32,
    ino: u32,
    place: u32,
) -> Result<u32, Stop>
    requires fits { Fits (view_in card) (node_walk (bounds_of card.volume) number ino place) (lent seen.old) }
    ensures walked { Walked (view_in card.entry) (node_walk (bounds_of card.entry.volume) number ino place)
        (lent seen.old) (found_of (card_in card.entry) result) (lent seen.new) }
    ensures same { SameLent seen.old seen.new }
    ensures found_in { FoundIn (card_in card.entry) result }
{
    seen.nodes.insert(number);
    let entry = nat::table_answer(card, number).ok_or(Stop::NoNode)?;
    if entry.address == 0 {
        return Err(Stop::NoNode);
    }
    if !in_main(card.volume, entry.address) {
        return Err(Stop::NodeOutside);
    }
    seen.blocks.insert(entry.address);
    let block = field::block_at(card.image, entry.address);
    if !belongs(block, number, ino, place, entry.inode) {
        return Err(Stop::ForeignNode);
    }
    Ok(entry.address)
}

// Whether an address stands for a block of zeros.
#[tactic(auto, unfolding(crate::specs::Block::is_hole))]
pub fn is_hole(address: u32) -> bool
    ensures { result ≡ is_hole address }
{
    (address == 0) | (address == 4294967295)
}

// The data block at an address, unless that is a hole.
fn data_at(card: OpenImage, seen: &mut SeenLists, address: u32) -> Result<Option<u32>, Stop>
    requires fits { Fits (view_in card) (data_walk (bounds_of card.volume) address) (lent seen.old) }
    ensures walked { Walked (view_in card.entry) (data_walk (bounds_of card.entry.volume) address)
        (lent seen.old) (data_of (card_in card.entry) result) (lent seen.new) }
    ensures same { SameLent seen.old seen.new }
    ensures data_in { DataIn (card_in card.entry) result }
{
    if is_hole(address) {
        return Ok(None);
    }
    if !in_main(card.volume, address) {
        return Err(Stop::DataOutside);
    }
    seen.blocks.insert(address);
    Ok(Some(address))
}

// No leaf: none of its addresses is left.
pub fn no_leaf() -> Leaf
    ensures { result ≡ record { node = Ok None; at = 0; end = 0 } }
{
    Leaf {
        node: Ok(None),
        at: 0,
        end: 0,
    }
}

// Where in the bytes of its leaf the address of a place stands, and where the leaf's addresses end.
#[derive(Clone, Copy)]
struct Span {
    pub at: u32,
    pub end: u32,
}

fn address_span(addresses: u32, p: place::Place) -> Span
    requires { SlotsIn addresses p × (addresses ≤ 923) }
    ensures { (result.at ≡ address_at p) × (result.end ≡ addresses_end addresses p) }
{
    match p {
        place::Place::Inode(s) => Span {
            at: 360 + 4 * s,
            end: 360 + 4 * addresses,
        },
        place::Place::Direct(_, s)
        | place::Place::Indirect(_, _, s)
        | place::Place::Double(_, _, s) => Span {
            at: 4 * s,
            end: 4072,
        },
        place::Place::Past => Span { at: 0, end: 0 },
    }
}

impl Leaf {
    // The data block whose address stands in a leaf, where the walk came to one.
    fn data(self, card: OpenImage, seen: &mut SeenLists) -> Result<Option<u32>, Stop>
        requires fits { Fits (view_in card) (onward (at_leaf (bounds_of card.volume) self.at) (data_of (card_in card) self.node)) (lent seen.old) }
        requires node_in { DataIn (card_in card) self.node × (self.at + 4 ≤ 4096) }
        ensures walked { Walked (view_in card.entry) (onward (at_leaf (bounds_of card.entry.volume) self.at) (data_of (card_in card.entry) self.node))
            (lent seen.old) (data_of (card_in card.entry) result) (lent seen.new) }
        ensures same { SameLent seen.old seen.new }
        ensures data_in { DataIn (card_in card.entry) result }
    {
        match self.node {
            Ok(node) => {
                let Some(block) = node else {
                    return Ok(None);
                };
                let address = field::get32(field::block_at(card.image, block), self.at as usize);
                data_at(card, seen, address)
            }
            Err(stop) => Err(stop),
        }
    }
}

impl File<'_> {
    // From the inode through the nodes that follow it on the way, to the last of them.
    fn follow(self, seen: &mut SeenLists, way: place::Way) -> Result<Option<u32>, Stop>
        requires fits { Fits (view_in self.card) (file_way_walk self way) (lent seen.old) }
        requires way_in { WayIn way.steps way.count }
        ensures walked { Walked (view_in self.entry.card) (file_way_walk self.entry way)
            (lent seen.old) (data_of (card_in self.entry.card) result) (lent seen.new) }
        ensures same { SameLent seen.old seen.new }
        ensures data_in { DataIn (card_in self.entry.card) result }
    {
        let mut node = self.inode;
        let mut at = 4052 + 4 * way.steps[0].slot;
        for step in &way.steps[1..way.count as usize] {
            let number = field::get32(field::block_at(self.card.image, node), at as usize);
            if number == 0 {
                return Ok(None);
            }
            node = node_step(self.card, seen, number, self.ino, step.number)?;
            at = 4 * step.slot;
        }
        Ok(Some(node))
    }

    // The leaf of an index of a file.
    fn find_leaf(self, seen: &mut SeenLists, index: u32) -> Result<Leaf, Stop>
        requires fits { Fits (view_in self.card) (file_leaf_walk self index) (lent seen.old) }
        ensures walked { Walked (view_in self.entry.card) (file_leaf_walk self.entry index)
            (lent seen.old) (leaf_found (card_in self.entry.card) result) (lent seen.new) }
        ensures same { SameLent seen.old seen.new }
        ensures leaf_of { FoundLeaf self.entry index result (lent seen.new) }
    {
        let p = place::find_place(self.addresses, index);
        let Span { at, end } = address_span(self.addresses, p);
        let way = place::way_to(p);
        if way.count == 0 {
            return Ok(no_leaf());
        }
        let node = self.follow(seen, way)?;
        Ok(Leaf {
            node: Ok(node),
            at,
            end,
        })
    }

    // The leaf of an index: the kept one as long as it has an address left, else walked to.
    fn leaf_of(self, seen: &mut SeenLists, index: u32, kept: Leaf) -> Result<Leaf, Stop>
        requires fits { Fits (view_in self.card) (file_leaf_walk self index) (lent seen.old) }
        requires keeps { Keeps self index kept (lent seen.old) }
        ensures walked { Walked (view_in self.entry.card) (file_leaf_walk self.entry index)
            (lent seen.old) (leaf_found (card_in self.entry.card) result) (lent seen.new) }
        ensures same { SameLent seen.old seen.new }
        ensures leaf_of { FoundLeaf self.entry index result (lent seen.new) }
        ensures used_up { OnErr result (kept.end ≤ kept.at) }
    {
        if kept.at < kept.end {
            return Ok(kept);
        }
        self.find_leaf(seen, index)
    }

    // The data block of an index of a file, where a leaf is kept. What is kept then is for the next index.
    pub fn next_block(
        self,
        seen: &mut SeenLists,
        index: u32,
        kept: &mut Leaf,
    ) -> Result<Option<u32>, Stop>
        requires fits { Fits (view_in self.card) (file_block_walk self index) (lent seen.old) }
        requires keeps { Keeps self index kept.old (lent seen.old) }
        ensures walked { Walked (view_in self.entry.card) (file_block_walk self.entry index)
            (lent seen.old) (data_of (card_in self.entry.card) result) (lent seen.new) }
        ensures same { SameLent seen.old seen.new }
        ensures data_in { DataIn (card_in self.entry.card) result }
        ensures keeps { Keeps self.entry (index + 1) kept.new (lent seen.new) }
    {
        let leaf = self.leaf_of(seen, index, *kept)?;
        *kept = Leaf {
            at: leaf.at + 4,
            ..leaf
        };
        leaf.data(self.card, seen)
    }

    // The data block of an index of a file.
    pub fn data_block(self, seen: &mut SeenLists, index: u32) -> Result<Option<u32>, Stop>
        requires fits { Fits (view_in self.card) (file_block_walk self index) (lent seen.old) }
        ensures walked { Walked (view_in self.entry.card) (file_block_walk self.entry index)
            (lent seen.old) (data_of (card_in self.entry.card) result) (lent seen.new) }
        ensures same { SameLent seen.old seen.new }
        ensures data_in { DataIn (card_in self.entry.card) result }
    {
        self.find_leaf(seen, index)?.data(self.card, seen)
    }
}
