// A state from which a step goes on.
ghost use Rattle.std.specs.Prelude.{◌≡◌, true};
ghost use Rattle.reader_state.specs.Resume.{memory};
ghost use Rattle.reader_state.specs.Fits.{fits, Sized};

use crate::At;

// A reader's numbers and the bytes that it holds, which fit each other.
#[derive(Clone, Copy)]
pub struct State<'a> {
    pub at: At,
    pub path: &'a [u8],
    pub first: &'a [u8],
    pub held: &'a [u8],
    pub journal: &'a [u8],
    ghost sized: { Sized (memory path.now first.now held.now journal.now) },
    ghost tested: { fits at (memory path.now first.now held.now journal.now) ≡ true },
}
