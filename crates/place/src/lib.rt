// File place: where the address of a file's block is, and the way to it through the file's nodes.
// What each means is in specs/: Place, Way.
#![tactic(auto)]

ghost use Rattle.std.specs.Prelude.{◌≡◌, [], ◌≤◌, length};
ghost use Rattle.place.specs.Place.{place_of, NodesIn};
ghost use Rattle.place.specs.Way.{step, way_of, in_array};

#[derive(Clone, Copy)]
pub enum Place {
    // A slot of the inode.
    Inode(u32),
    // Direct node 0 or 1, and its slot.
    Direct(u32, u32),
    // Indirect node 0 or 1, its slot, and the slot of the direct node there.
    Indirect(u32, u32, u32),
    // The double indirect node's slot, and the slots of the two nodes below it.
    Double(u32, u32, u32),
    // Behind the last index.
    Past,
}

// A node on the way to a block: its place number in the file, and the slot taken in it.
#[derive(Clone, Copy)]
pub struct Step {
    pub number: u32,
    pub slot: u32,
}

// The nodes on the way, the inode first. There are none where the index is past the last.
// A count and an array and no list: the library has no heap.
#[derive(Clone, Copy)]
pub struct Way {
    pub count: u32,
    pub steps: [Step; 4],
}

// The place of a block index, where the inode holds so many addresses.
#[tactic(auto, unfolding(crate::specs::Place::place_of))]
pub fn find_place(addresses: u32, index: u32) -> Place
    ensures { result ≡ place_of addresses index }
{
    if index < addresses {
        return Place::Inode(index);
    }
    let i = index - addresses;
    if i < 2036 {
        return Place::Direct(i / 1018, i % 1018);
    }
    let j = i - 2036;
    if j < 2072648 {
        return Place::Indirect(j / 1036324, j % 1036324 / 1018, j % 1018);
    }
    let k = j - 2072648;
    if k < 1054977832 {
        return Place::Double(k / 1036324, k % 1036324 / 1018, k % 1018);
    }
    Place::Past
}

fn node(number: u32, slot: u32) -> Step
    ensures { result ≡ step number slot }
{
    Step { number, slot }
}

// The way that leads nowhere.
pub fn no_way() -> Way
    ensures { result ≡ in_array [] }
{
    way_through(&[])
}

// The way through these nodes, with zeros behind them.
fn way_through(nodes: &[Step]) -> Way
    requires { length nodes.now ≤ 4 }
    ensures { result ≡ in_array nodes.now }
{
    let mut steps = [node(0, 0); 4];
    steps[..nodes.len()].copy_from_slice(nodes);
    Way {
        count: nodes.len() as u32,
        steps,
    }
}

// The way to a place.
pub fn way_to(p: Place) -> Way
    requires { NodesIn p }
    ensures { result ≡ in_array (way_of p) }
{
    match p {
        Place::Inode(s) => way_through(&[node(0, s)]),
        Place::Direct(n, s) => way_through(&[node(0, n), node(1 + n, s)]),
        Place::Indirect(n, k, s) => way_through(&[
            node(0, 2 + n),
            node(3 + 1019 * n, k),
            node(4 + 1019 * n + k, s),
        ]),
        Place::Double(n, k, s) => way_through(&[
            node(0, 4),
            node(2041, n),
            node(2042 + 1019 * n, k),
            node(2043 + 1019 * n + k, s),
        ]),
        Place::Past => no_way(),
    }
}

// The way to the block of an index.
pub fn find_way(addresses: u32, index: u32) -> Way
    ensures { result ≡ in_array (way_of (place_of addresses index)) }
{
    way_to(find_place(addresses, index))
}
