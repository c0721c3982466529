// Readers and their exactness stand in specs/.
#![tactic(auto)]
