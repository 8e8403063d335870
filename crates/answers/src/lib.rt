// Answers of the public functions, right and wrong, each held against the function's statement; no code.
//
// Holds: for each public function whose statement can be computed, what it gives for some arguments, which is what a reader expects,
// and which at least two wrong answers by their names are not; a run over three small blocks; a search that finds; what a batch says
// on filled and built tables. Whole fills and builds are too long to compute: must-fail edits and runs try them.
// Ports: nothing.
// Adds: all of it.
#![tactic(auto)]
