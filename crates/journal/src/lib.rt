// A journal's count, the search of its entries, and whether they name a number twice, the same for every width. What each means is in
// specs/Journal. Bytes and width stay two parameters: each caller calls once, and would build a struct of both for that call alone.
#![tactic(auto)]

ghost use Rattle.std.specs.Prelude.{◌≡◌, ◌+◌, ◌≤◌, length};
ghost use Rattle.field.specs.Number.{le16};
ghost use Rattle.journal.specs.Journal.{count_within, entry_start, search_from, journal_find, named_before, names_twice};

// Whether a journal counts at most so many entries.
pub fn count_within(journal: &[u8], most: u16) -> bool
    requires { 2 ≤ length journal.now }
    ensures { result ≡ count_within most journal.now }
{
    field::get16(journal, 0) <= most
}

// Where the first of the first `count` entries starts that has the number.
#[tactic(auto, using(crate::proofs::Searching::search_steps))]
fn find_among(journal: &[u8], width: usize, number: u32, count: usize) -> Option<usize>
    requires { (4 ≤ width) × (entry_start width count ≤ length journal.now) }
    ensures { result ≡ search_from width journal.now number count 0 }
{
    for i in 0..count {
        let at = 2 + width * i;
        if field::get32(journal, at) == number {
            return Some(at);
        }
    }
    None
}

// Where the first of the journal's entries starts that has the number.
#[tactic(auto, unfolding(crate::specs::Journal::journal_find))]
pub fn find_entry(journal: &[u8], width: usize, number: u32) -> Option<usize>
    requires { (4 ≤ width) × (entry_start width (le16 journal.now 0) ≤ length journal.now) }
    ensures { result ≡ journal_find width journal.now number }
{
    find_among(
        journal,
        width,
        number,
        usize::from(field::get16(journal, 0)),
    )
}

// Whether one of the entries before entry i has its number.
fn named_before(journal: &[u8], width: usize, i: usize) -> bool
    requires { (4 ≤ width) × (entry_start width (i + 1) ≤ length journal.now) }
    ensures { result ≡ named_before width journal.now i }
{
    let number = field::get32(journal, 2 + width * i);
    find_among(journal, width, number, i).is_some()
}

// Whether two of the journal's entries have one number.
#[tactic(auto, using(crate::proofs::Once::once_steps))]
pub fn names_twice(journal: &[u8], width: usize) -> bool
    requires { (4 ≤ width) × (entry_start width (le16 journal.now 0) ≤ length journal.now) }
    ensures { result ≡ names_twice width journal.now }
{
    for i in 0..usize::from(field::get16(journal, 0)) {
        if named_before(journal, width, i) {
            return true;
        }
    }
    false
}
