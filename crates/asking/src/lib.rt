// What a reader that is fed one block at a time means is in specs/; its code is in the crates above.

#![tactic(auto)]
