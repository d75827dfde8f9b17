// Laws alone: that every number that is printed fits its columns, and every sheet its buffer.
#![tactic(auto)]
