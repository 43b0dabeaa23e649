// The PWS and the PSO machine reach the same local states (report, Conjecture 1). There is no code here: specs/ has the statements, proofs/ the proofs.

#![tactic(auto)]
