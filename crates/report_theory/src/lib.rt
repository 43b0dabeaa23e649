// Which fences are needed (document 02, N10). There is no code here: specs/ has what a report means and the statements, proofs/ the proofs.

#![tactic(auto)]
