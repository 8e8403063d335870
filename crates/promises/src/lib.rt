// What the definitions promise, stated once and in one place; no code.
//
// Holds: the three demands, what is promised of the audit, of the search of one block and of a build's numbers, and the table of
// 01's examples under a single statement; what is not refused is answered; each refusal of a build, exactly when, with examples at
// later blocks; what each slot holds after a build; what the query program writes; that the border to Rust and C loses nothing, and
// demands 2 and 3 of what it hands back.
// Ports: nothing.
// Adds: all of it.
#![tactic(auto)]
