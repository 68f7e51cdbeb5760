// The wrong programs of the paper's section "What has to be nailed to the definitions", each with a theorem that the
// promises shut it out. It holds no function.
// Read specs/Runs.antt, of the run, then specs/Calls.antt, of the pass and of the inner call; the theorems stand in
// proofs/ under the same names.
#![tactic(auto)]
