// The three demands and the scope's table T1 to T13, as theorems over the library's definitions, in specs/ and proofs/. No code.
#![tactic(auto)]
