// The session walk.
#![tactic(auto)]
