// What a walk over a card lists as it goes. What a walk means is in specs/Walk, and how lent lists stand for what it has seen in
// specs/Lent; the code that walks is in the crates above.
#![tactic(auto)]

use list::NumberList;

// The node numbers looked up and the blocks read so far.
#[derive(Drop)]
pub struct SeenLists<'s, 'a, 't, 'b> {
    pub nodes: &'s mut NumberList<'a>,
    pub blocks: &'t mut NumberList<'b>,
}
