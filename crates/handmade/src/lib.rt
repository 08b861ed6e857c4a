// What the programs `corners` and `refused` share: heaps built by hand, and how an answer is written. It is for them alone.
#![tactic(auto)]

pub mod heaps;
pub mod tell;
