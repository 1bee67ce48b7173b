//! Want of memory.
use std::alloc::AllocError;

/// There was no memory. It is std's own error, to which `?` converts whatever a collection answers.
pub type Memory = AllocError;
