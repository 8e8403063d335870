// Packing and building: definitions and their laws, and the type of what is chosen.
//
// Holds: in specs/ what a build does, over any blocks (their sizes, rays, walks, slots and the skip rule), and what is
// promised of it; in proofs/ the laws of a place, of a run, of builds from one seed, of the look-up in a finished table,
// and demand 2's "exactly when", for a success and for each refusal.
// Ports: the meaning of src/gen_tables/magic.rs (lines 47 to 135): `generate_magic` and `gen_all_magic`.
// Adds: the attempt budget, the room, the build from lent multipliers, all laws.
#![tactic(auto)]

// What is taken for a block: its multiplier and the attempt count. A block's choice is an `Option` of it.
#[derive(Clone, Copy)]
pub struct Taken {
    pub multiplier: u64,
    pub count: u64,
}
