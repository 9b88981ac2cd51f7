// BLAKE2b (RFC 7693): its definitions and laws, in specs/. The compression function F stands in blake2b_compress, the hash in blake2b_hash.
#![tactic(auto)]
