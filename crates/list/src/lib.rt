// A rising list of numbers at the front of lent bytes, four bytes a number, and the insertion of one.
// What a list and an insertion mean is in specs/: Lists, Insertion.
#![tactic(auto)]

ghost use Rattle.std.specs.Prelude.{◌≡◌, ◌+◌, ◌*◌, ◌≤◌, length};
ghost use Rattle.list.specs.Lists.{Holds, HasInserted};
ghost use Rattle.list.specs.Insertion.{Placed, Shifted};

// A rising list of numbers at the front of lent bytes, and how many there are.
#[derive(Drop)]
pub struct NumberList<'a> {
    pub bytes: &'a mut [u8],
    pub count: usize,
}

fn least(a: usize, b: usize) -> usize
    ensures { result ≤ b }
{
    if a < b {
        return a;
    }
    b
}

// The entry of a rising list that x goes before, unless x is there. The search starts at the end, where most numbers go, and reaches twice
// as far with each turn, until half of what is left is nearer. It is by hand, since the numbers stand in C's bytes, and a library's is of a slice
// of numbers.
fn find_spot(list: &[u8], count: usize, x: u32) -> Option<usize>
    requires { Holds x list.now count }
    ensures { Placed list.now count x result }
{
    let mut low: usize = 0;
    let mut high = count;
    let mut reach: usize = 0;
    while low < high {
        let gap = least(reach, (high - low) / 2);
        let middle = high - 1 - gap;
        let y = field::get32(list, 4 * middle);
        if y == x {
            return None;
        }
        reach = 2 * gap + 1;
        if y < x {
            low = middle + 1;
            continue;
        }
        high = middle;
    }
    Some(low)
}

// x put before entry p, and the entries from there on moved up by one.
fn shift_in(list: &mut [u8], p: usize, count: usize, x: u32)
    requires { (p ≤ count) × (4 * (count + 1) ≤ length list.old) }
    ensures { Shifted list.old p count x list.new }
{
    list.copy_within(4 * p..4 * count, 4 * p + 4);
    field::put32(list, 4 * p, x);
}

impl NumberList<'_> {
    // x put in its place, unless it is there.
    pub fn insert(&mut self, x: u32)
        requires { Holds x self.old.bytes.now self.old.count }
        ensures same_bytes { self.new.bytes.ghost_name ≡ self.old.bytes.ghost_name }
        ensures inserted { HasInserted self.old.bytes.now self.old.count x self.new.bytes.now self.new.count }
    {
        let count = self.count;
        let bytes = &mut *self.bytes;
        if let Some(p) = find_spot(bytes, count, x) {
            shift_in(bytes, p, count, x);
            self.count = count + 1;
        }
    }
}
