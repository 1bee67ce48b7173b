//! Rows: definitions of the crates below, computed on values at which a wrong word would be seen. No code.
#![tactic(auto)]
