// No code: the theorems that cross subjects, over the definitions of the crates below: lists of calls, the plain tally, cuts, the message,
// the exports together, the worked examples. proofs/Demands has every top theorem once more.
#![tactic(auto)]
