// Laws that every crate may cite; no code.
#![tactic(auto)]
