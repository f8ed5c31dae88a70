// What the customer demands, as theorems over the definitions that the calls' contracts cite: see proofs/. The crate has no code.
#![tactic(auto)]
