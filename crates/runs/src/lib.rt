// What a run of calls is, and what is promised of every run: specs/ and proofs/.
#![tactic(auto)]
