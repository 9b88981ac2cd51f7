// The writers of a session (document 01, "The session walk"). They stand in the crates of their formats; that a call of each is a write of a
// written session is proved here, from its contract.
#![tactic(auto)]
