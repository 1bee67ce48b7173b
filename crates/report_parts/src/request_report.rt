//! The lines of refused patterns and of requests.
ghost use Rattle.std.specs.Prelude.{◌≡◌, ◌++◌, OnOk, codes, string_bytes};
ghost use Rattle.report_parts.specs.RequestText.{error_text, more_names, names_text, node_text, pattern_line, request_line, request_text};

use crate::report_words::{kind_word, push_authority};
use call_journal::Sent;
use proto_discovery::Request;
use tree_text::push_escaped;
use xc_base::{List, Memory, Node, Text};
use xds_bootstrap::Bootstrap;

/// Adds the line of a pattern that was refused.
#[tactic(auto, unfolding(crate::specs::RequestText::pattern_line))]
pub fn push_pattern_line(out: &mut String, pattern: &Text) -> Result<(), Memory>
    ensures { OnOk result (string_bytes out.new ≡ string_bytes out.old ++ pattern_line pattern.now) }
{
    out.push_str("  pat ")?;
    push_escaped(out, pattern)?;
    out.push_str("\n")
}

/// Adds the error of a request, where it refuses a response.
fn push_error(out: &mut String, error: &Option<Text>) -> Result<(), Memory>
    ensures { OnOk result (string_bytes out.new ≡ string_bytes out.old ++ error_text error.now) }
{
    match error {
        None => Ok(()),
        Some(error) => {
            out.push_str(" err=")?;
            push_escaped(out, error)
        }
    }
}

/// A mark where the request has the node.
fn node_text(node: &Option<Node>) -> &'static str
    ensures { result.now ≡ node_text node.now }
{
    match node {
        None => "",
        Some(_) => " node",
    }
}

/// Adds names, each behind a comma.
fn push_more_names(out: &mut String, names: &[Text]) -> Result<(), Memory>
    ensures { OnOk result (string_bytes out.new ≡ string_bytes out.old ++ more_names names.now) }
{
    for name in names {
        out.push(',')?;
        push_escaped(out, name)?;
    }
    Ok(())
}

/// Adds the names of a request, with a comma between two.
fn push_names(out: &mut String, names: &List<Text>) -> Result<(), Memory>
    ensures { OnOk result (string_bytes out.new ≡ string_bytes out.old ++ names_text names.now) }
{
    match names.as_slice().split_first() {
        Some((first, more)) => {
            push_escaped(out, first)?;
            push_more_names(out, more)
        }
        None => Ok(()),
    }
}

/// Adds the names that a request asks for, its error, and whether it has the node.
fn push_asked(out: &mut String, request: &Request) -> Result<(), Memory>
    ensures { OnOk result (string_bytes out.new ≡ string_bytes out.old ++ codes " names=" ++ names_text request.now.names ++ error_text request.now.error ++ node_text request.now.node) }
{
    out.push_str(" names=")?;
    push_names(out, request.names.get())?;
    push_error(out, &request.error)?;
    out.push_str(node_text(&request.node))
}

/// Adds what a request asks for and answers.
#[tactic(auto, unfolding(crate::specs::RequestText::request_text))]
fn push_request(out: &mut String, request: &Request) -> Result<(), Memory>
    ensures { OnOk result (string_bytes out.new ≡ string_bytes out.old ++ request_text request.now) }
{
    out.push_str(kind_word(request.kind))?;
    out.push_str(" v=")?;
    push_escaped(out, &request.version)?;
    out.push_str(" n=")?;
    push_escaped(out, &request.nonce)?;
    push_asked(out, request)
}

/// Adds the line of a request to an authority.
#[tactic(auto, unfolding(crate::specs::RequestText::request_line))]
pub fn push_request_line(out: &mut String, boot: &Bootstrap, sent: &Sent) -> Result<(), Memory>
    ensures { OnOk result (string_bytes out.new ≡ string_bytes out.old ++ request_line boot.now.authorities sent.now) }
{
    out.push_str("  req ")?;
    push_authority(out, boot, sent.authority)?;
    out.push_str(" ")?;
    push_request(out, &sent.request)?;
    out.push_str("\n")
}
