// The theory of lists of entries. There is no code here: specs/ has what a list's verdict means, proofs/ that it can be decided.

#![tactic(auto)]
