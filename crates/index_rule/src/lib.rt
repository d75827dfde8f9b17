// The index of beginnings: definitions and theorems. There is no code here.
#![tactic(auto)]
