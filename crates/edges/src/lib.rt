// The cases of document 01 at the edges.
#![tactic(auto)]
