// The slots of a directory block or of an inline directory, and their scan for a name, turn by turn.
// What each means is in specs/: Slot, Scan.
#![tactic(auto)]

ghost use Rattle.std.specs.Prelude.{◌≡◌, ◌+◌, ◌-◌, ◌<◌, ◌≤◌, length, drop, IfErr};
ghost use Rattle.field.specs.Map.{low_bit};
ghost use Rattle.dentry.specs.Slot.{layout_of, LayoutIn, wanted_in, slot_at, in_part};
ghost use Rattle.dentry.specs.Scan.{free_run, turns_in, turns_most, Scanning, sought_of, Took};

mod slots;

use answer::Stop;
pub use slots::Slots;

// Where slots are: the byte of the block that they start at, how many there are, and where behind that byte their names begin.
#[derive(Clone, Copy)]
pub struct Layout {
    pub start: usize,
    pub slots: usize,
    pub names: usize,
}

// A name that is sought, with its hash.
#[derive(Clone, Copy)]
pub struct Name<'a> {
    pub hash: u32,
    pub bytes: &'a [u8],
}

// What one slot holds: nothing, the name's inode number, another entry and how many slots it has, or an entry that doesn't fit.
#[derive(Clone, Copy)]
pub enum Slot {
    Free,
    Match(u32),
    Other(usize),
    Malformed,
}

// Where a scan stands, and how many turns it took up to there.
#[derive(Clone, Copy, Default)]
pub struct Scan {
    pub slot: usize,
    pub turns: usize,
}

// The layout of an inline directory, or of a directory block.
pub fn layout_of(inline: bool) -> Layout
    ensures { (result ≡ layout_of inline) × (result.start ≤ 4096) × LayoutIn result (4096 - result.start) }
{
    if inline {
        return Layout {
            start: inode::INLINE_START,
            slots: 182,
            names: 2032,
        };
    }
    Layout {
        start: 0,
        slots: 214,
        names: 2384,
    }
}

// The slots of a block, where a layout says that they lie.
pub fn slots_at(block: &[u8], layout: Layout) -> Slots
    requires { (length block.now ≡ 4096) × (layout.start ≤ 4096) × LayoutIn layout (4096 - layout.start) }
    ensures { (result.layout ≡ layout) × (result.part.now ≡ drop layout.start block.now) }
{
    Slots {
        part: &block[layout.start..],
        layout,
    }
}

// The slots of an inline directory, by the bytes of its inode, or of a directory block.
pub fn slots_of(block: &[u8], inline: bool) -> Slots
    requires { length block.now ≡ 4096 }
    ensures { (result.layout ≡ layout_of inline) × (result.part.now ≡ drop (layout_of inline).start block.now) }
{
    slots_at(block, layout_of(inline))
}

impl Slots<'_> {
    // A slot's bit in the map: the order of a directory map's bits is chosen here, and in `free_run`.
    fn slot_bit(self, slot: usize) -> u8
        requires { slot < self.layout.slots }
        ensures { result ≡ low_bit self.entry.part.now slot }
    {
        field::low_bit(self.part, slot)
    }

    // One slot. The name's bytes are compared only where hash and length are the name's. It is inlined, as a turn is.
    #[inline(always)]
    fn slot_at(self, slot: usize, name: Name) -> Slot
        requires { slot < self.layout.slots }
        ensures { result ≡ slot_at self.entry.layout self.entry.part.now (wanted_in name.entry) slot }
    {
        if self.slot_bit(slot) == 0 {
            return Slot::Free;
        }
        let entry = 30 + 11 * slot;
        let len = field::get16(self.part, entry + 8) as usize;
        let slots = (len + 7) / 8;
        let fits = (1 <= len) & (len <= 255) & (slot + slots <= self.layout.slots);
        if !fits {
            return Slot::Malformed;
        }
        if field::get32(self.part, entry) != name.hash {
            return Slot::Other(slots);
        }
        if len != name.bytes.len() {
            return Slot::Other(slots);
        }
        let at = self.layout.names + 8 * slot;
        if field::same_at(self.part, at, name.bytes) {
            return Slot::Match(field::get32(self.part, entry + 4));
        }
        Slot::Other(slots)
    }

    // How many slots are free from a free one on. Bits behind the last slot's belong to no run.
    fn free_run(self, slot: usize) -> usize
        requires { slot < self.layout.slots }
        ensures { result ≡ free_run self.entry.layout self.entry.part.now slot }
    {
        field::low_zeros(self.part, slot, self.layout.slots)
    }

    // One turn of a scan: a run of free slots is skipped, or an entry looked at. `None`: the scan goes on. It is inlined: a call for each entry
    // of a full block costs more than the turn itself.
    #[inline(always)]
    pub fn take_turn(self, scan: &mut Scan, name: Name) -> Result<Option<u32>, Stop>
        requires { (scan.old.slot < self.layout.slots)
            × Scanning self.layout self.part.now (wanted_in name) scan.old }
        ensures took { Took self.entry.layout self.entry.part.now (wanted_in name.entry) scan.old result scan.new }
        ensures turns_value { (scan.new.turns ≡ scan.old.turns + 1)
            × (scan.new.turns ≤ turns_most self.entry.layout self.entry.part.now (wanted_in name.entry)) }
    {
        scan.turns += 1;
        match self.slot_at(scan.slot, name) {
            Slot::Free => scan.slot += self.free_run(scan.slot),
            Slot::Other(passed) => scan.slot += passed,
            Slot::Match(ino) => return Ok(Some(ino)),
            Slot::Malformed => return Err(Stop::MalformedSlot),
        }
        Ok(None)
    }

    // A whole scan, which begins at the first slot: the turns that the search in a directory takes as well. `None`: it went to the end, and
    // the name isn't there.
    pub fn scan_slots(self, scan: &mut Scan, name: Name) -> Result<Option<u32>, Stop>
        ensures name_value { (in_part self.entry.layout self.entry.part.now (wanted_in name.entry) ≡ sought_of result)
            × (scan.new.turns ≡ turns_in self.entry.layout self.entry.part.now (wanted_in name.entry)) }
        ensures stop_value { IfErr result (λ stop. stop ≡ Stop.MalformedSlot) }
        ensures turns_bound { scan.new.turns ≤ turns_most self.entry.layout self.entry.part.now (wanted_in name.entry) }
    {
        *scan = Scan::default();
        'slots: while scan.slot < self.layout.slots {
            let found = self.take_turn(scan, name)?;
            if found.is_some() {
                return Ok(found);
            }
        }
        Ok(None)
    }
}
