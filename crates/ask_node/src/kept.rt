// What a reader keeps of an opened card.
ghost use Rattle.asking.specs.Table.{keeping, KeptIn};

// Its volume, the first block of its pack, which has the NAT map, and the NAT journal: so that no block of opening is asked for again.
#[derive(Clone, Copy)]
pub struct Kept<'a> {
    pub volume: checkpoint::Volume,
    pub first: &'a [u8],
    pub journal: &'a [u8],
    ghost fits: { KeptIn (keeping volume first.now journal.now) },
}
