// Demands: what the user demands of the executive, each sentence a theorem under its own words: demand 1 in Answered, 2 in Exact, 3 in Kept, Aborted and
// Dispatched; of document 01 "Nobody overtakes" in Overtakes; of document 02 E4 in UnderRead, E1 in Signalled, E6 in Waited, E8 in Holes.
//
// It has no code. `executive::step` is proved equal to `step_of`, `executive::load` to `tables_of` and `image::write` to `write_of`, so what is proved here
// of those is true of the code that ships. A reader reads the statements; the proofs cite the laws of `lawful`. `crates/demands/test` tries wrong
// definitions, which are refused.
#![tactic(auto)]
