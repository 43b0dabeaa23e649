// What the bytes of a pattern file say (docs/PATTERNS.md, "Records"). There is no code here: specs/ has the definitions, proofs/ what holds of all that is read.

#![tactic(auto)]
