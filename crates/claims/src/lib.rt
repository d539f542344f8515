// What is promised, for an auditor to read in one place: specs/Demands.antt has the demands, specs/Examples.antt the examples, each as a
// statement over the contracts of the public functions; proofs/ proves them from the crates below. There is no code here.
#![tactic(auto)]
