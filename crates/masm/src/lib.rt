// How MASM reads a line of assembly text: definitions in specs/, worked examples and laws in proofs/. There is no code.
#![tactic(auto)]
