// The board's blocks, as the packing takes them: definitions and laws, no code.
//
// Holds: `real`, the size, rays, walks, slots and skip rule of each of the 128 blocks, the laws that a build needs, and
// what 01 says of the board's builds in numbers.
// Ports: the arithmetic of generate_magic (src/gen_tables/magic.rs, lines 47 to 125).
// Adds: nothing of its own.
#![tactic(auto)]
