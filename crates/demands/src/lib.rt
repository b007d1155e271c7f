// The user's demands and the cases that are proved: statements in specs/, their proofs in proofs/. No code.
#![tactic(auto)]
