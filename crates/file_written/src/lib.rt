// What a file holds, written as bytes, and that exactly this is read. There is no code here: specs/ has the statements, proofs/ the proofs.

#![tactic(auto)]
