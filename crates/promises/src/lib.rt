// What is promised of the whole. There is no code here: specs/ has the statements, proofs/ what shows that they hold.

#![tactic(auto)]
