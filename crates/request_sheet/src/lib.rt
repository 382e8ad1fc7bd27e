// No code: tables of the numbers that requests added, computed from the definitions that the contracts cite, on both sides of each boundary.

#![tactic(auto)]
