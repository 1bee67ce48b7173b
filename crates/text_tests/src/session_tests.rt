//! A session that is read.
use session_script::{read_session, room};
use std::test::Fail;

/// A session with a line of each form.
const SESSION: &[u8] = b"\
xds-session 1\n\
boot {\"xds_servers\":[{\"server_uri\":\"ms:1\"}],\"node\":{\"id\":\"n\"}}\n\
target xds:///svc\n\
callers 2\n\
d open -\n\
@5 d data - 0aFF00000001\n\
d time 7\n\
d endpoint [::A]:80 idle\n\
c 2 start 65535 3 /p x=a%20b y=\n\
@9 c 2 pick 65535 18446744073709551615\n\
c 2 commit 65535\n\
d lost -\n\
d sweep";

/// Nine lines, one entry more for every five bytes that are begun and for the start, and the last sweep.
#[test]
fn a_session_has_a_line_of_each_form(rt: HostRuntime) -> Result<(), Fail> {
    let Ok(session) = read_session(rt.alloc(), SESSION) else {
        return Err(Fail::from("a session of all forms is refused"));
    };
    assert!(rt; room(&session) == 13);
    Ok(())
}
