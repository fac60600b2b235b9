// Document 01, "Cases at the edges": its marked rows, proved. Definitions and a theorem, no code.
#![tactic(auto)]
