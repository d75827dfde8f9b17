// The shortest legend of a tray: definitions and theorems. There is no code here.
#![tactic(auto)]
