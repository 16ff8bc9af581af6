// Demand 3: MASM's reader takes from each printed line what it shows. Definitions in specs/, theorems in proofs/. There is no code.
#![tactic(auto)]
