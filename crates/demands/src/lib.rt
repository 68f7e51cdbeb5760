// The desk's three demands, of any outcome that the run's promise allows. It holds no function.
// Read specs/Demands.antt, which states them, with specs/Words.antt; proofs/Demands.antt proves them from the laws of
// crate rules.
#![tactic(auto)]
