// Evidence exists for every program: a run or a safe list. There is no code here: specs/ has the statements, proofs/ the proofs.

#![tactic(auto)]
