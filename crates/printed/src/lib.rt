// What document 000 printed: a table of rows from the oracle, and the theorem that each holds. Definitions in specs/, theorems in proofs/. There is no code.
#![tactic(auto)]
