//! How many entries a session makes.
ghost use Rattle.std.specs.Prelude.{◌≡◌, ◌+◌, ◌≤◌};
ghost use Rattle.session_lines.specs.Before.{entries};
ghost use Rattle.session_script.specs.ScriptLaws.{HasRoom};

use session_lines::session::{Line, Session};

/// At most how many entries the lines make.
fn entries(lines: &[Line]) -> u32
    requires few { entries lines.now ≤ 1048575 }
    ensures { result ≡ entries lines.now }
{
    let mut entries = 0;
    for line in lines {
        entries += line.work.entries() as u32;
    }
    entries
}

/// The greatest number of entries that a history of the session has: one for each line, one more for every five
/// bytes of data that are begun and for each start, and one for the last sweep. It takes no memory. The session
/// makes at most 1,048,576 entries by this count, as each one does that `read_session` gives.
pub fn room(session: &Session) -> u32
    requires few { entries session.now.lines + 1 ≤ 1048576 }
    ensures count { result ≡ entries session.now.lines + 1 }
    ensures enough { HasRoom session.now result }
{
    entries(session.lines.as_slice()) + 1
}
