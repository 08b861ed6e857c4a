// Laws that know nothing of timers. There is no code here: specs/ has the definitions, proofs/ the lemmas.

#![tactic(auto)]
