// Frames: their definition and laws, in specs/.
#![tactic(auto)]

// Magic (4), code (1) and body length (4).
pub const MIN_HEADER_SIZE: usize = 9;

// The same with the check (4), after which a body stands.
pub const HEADER_SIZE: usize = 13;
