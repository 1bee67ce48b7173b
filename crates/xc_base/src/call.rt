//! The client's node, and a call with its headers.
use crate::list::List;
use crate::names::CallId;
use crate::text::Text;

/// The client's node as the bootstrap describes it (gRFC A27). A text that the bootstrap lacks is empty.
#[derive(Clone, Drop, PartialEq, Eq)]
pub struct Node {
    /// The client's own name.
    pub id: Text,
    /// The group of clients that it belongs to.
    pub cluster: Text,
    /// The three parts of the place where it runs.
    pub region: Text,
    pub zone: Text,
    pub sub_zone: Text,
}

/// A header field of a call. Names are compared without regard to the case of ASCII letters.
#[derive(Clone, Drop, PartialEq, Eq)]
pub struct Header {
    pub name: Text,
    pub value: Text,
}

/// A call that a client starts. All random choices that are made for it come from its word.
#[derive(Clone, Drop, PartialEq, Eq)]
pub struct Call {
    pub id: CallId,
    /// The path of its method, which begins with `/`.
    pub path: Text,
    pub headers: List<Header>,
    /// The 64 bits from which `draw` makes its random choices.
    pub word: u64,
}
