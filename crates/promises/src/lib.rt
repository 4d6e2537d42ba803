// What ties the floors together is stated in proofs/: one result for each promise, that a mode 7 picture goes into its block, and document 01's marked
// examples. There is no code here.
#![tactic(auto)]
