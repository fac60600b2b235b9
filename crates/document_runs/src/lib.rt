// Lists of calls in code, and the claims of them: definitions and proofs, no code.
#![tactic(auto)]
