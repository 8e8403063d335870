// The board: definitions and their laws, and no code.
//
// Holds: in specs/ what a reader has to believe of rays, masks, attack sets and blocks, and the crate's own answers
// written out beside them; in proofs/ the geometry, computed over the whole board, and the laws between all of these.
// Ports: the meaning of src/gen_tables/rays.rs (lines 12 to 52) and of src/gen_tables/magic_helpers.rs (lines 17 to 138).
// Adds: the attack set of the FIDE Laws, defined apart from any stepping.
#![tactic(auto)]
