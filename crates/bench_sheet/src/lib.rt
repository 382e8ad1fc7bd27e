// No code: tables of document 01's numbers, as the requests have changed them, computed from the definitions that the contracts cite.
// specs/Sheet.antt has the lines that the document marks in its bench sheet, the files named Rules its rules on both sides of each boundary.

#![tactic(auto)]
