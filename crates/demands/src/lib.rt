// What is demanded of the judge (document 01), as theorems about its verdict. There is no code here: specs/ has the statements, proofs/ the proofs.

#![tactic(auto)]
