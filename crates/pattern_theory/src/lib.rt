// Patterns and lists of them (docs/PATTERNS.md). There is no code here: specs/ has what they mean and what is said of a list, proofs/ that it is right.

#![tactic(auto)]
