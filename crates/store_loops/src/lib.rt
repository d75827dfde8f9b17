// Laws alone: no functions.
#![tactic(auto)]
