//! Tests of the lowest crates, from small values to the messages of discovery: each call that can answer want of
//! memory succeeds with ample memory, on bytes from outside. What it then says is a clause of the call.
#![tactic(auto)]

#[cfg(test)]
mod test_base;
#[cfg(test)]
mod test_discovery;
#[cfg(test)]
mod test_framing;
#[cfg(test)]
mod test_messages;
#[cfg(test)]
mod test_wire;
