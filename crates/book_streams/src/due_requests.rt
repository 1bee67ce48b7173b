//! What may be due on the streams.
ghost use Rattle.std.specs.Prelude.{◌≡◌};
ghost use Rattle.book_streams.specs.DueRequests.{due_after, kind_due_at};

use xc_base::Kind;

/// What is known of the requests that may be due.
#[derive(Clone, Copy)]
pub enum Due {
    /// On the stream at this place none but the answer to a response of this kind, by the keys that were told last.
    Answer { place: usize, kind: Kind },
    /// Nothing is known.
    Any,
}

impl Due {
    /// What is known once a response of a kind came on the stream at a place, which may have been marked before.
    pub fn after_response(place: usize, kind: Kind, was_marked: bool) -> Due
        ensures { result ≡ due_after place kind was_marked }
    {
        if was_marked {
            Due::Any
        } else {
            Due::Answer { place, kind }
        }
    }

    /// The kind of which alone a request may be due on the stream at a place, where that is known.
    pub fn kind_at(self, place: usize) -> Option<Kind>
        ensures { result ≡ kind_due_at self place }
    {
        match self {
            Due::Answer { place: other, kind } => { if other == place { Some(kind) } else { None } }
            Due::Any => None,
        }
    }
}
