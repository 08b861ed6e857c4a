// The theorems on the calls of `timers`. There is no code here: specs/ has what they speak of, proofs/ why they hold.

#![tactic(auto)]
