// Two trays merged: definitions and theorems. There is no code here.
#![tactic(auto)]
