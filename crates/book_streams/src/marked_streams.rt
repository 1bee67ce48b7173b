//! The streams that are told which keys are watched.
ghost use Rattle.std.specs.Prelude.{◌≡◌, List, length, true, OnOk, IfOk};
ghost use Rattle.ads_stream.specs.declared.stream.StreamState.{StreamState};
ghost use Rattle.book_streams.specs.StreamsKept.{names_among};
ghost use Rattle.book_streams.specs.DueRequests.{AreSettledBut};
ghost use Rattle.book_streams.specs.Settling.{AreKept};
ghost use Rattle.book_streams.specs.Telling.{told_first, sent_first};

use crate::asking::tell;
use crate::changed_names::{are_same, mark_changed};
use crate::due_requests::Due;
use crate::stream_marks::StreamMarks;
use crate::told_keys::ToldKeys;
use ads_stream::Stream;
use call_journal::Sent;
use std::alloc::Global;
use xc_base::{Authority, Key, List, Memory};

/// Keeps which keys are watched, and marks the streams of those authorities whose names are others than before. By other keys
/// anything may be due. Where the caller says that the keys stay, they are neither compared nor copied. It fails for want of
/// memory alone.
pub fn watch(
    alloc: Global,
    marks: &mut StreamMarks,
    told: &mut ToldKeys,
    due: &mut Due,
    keys: &[Key],
    stays: bool,
) -> Result<(), Memory>
    requires stays { stays ≡ true → keys.now ≡ told.old }
    ensures told { OnOk result (told.new ≡ keys.now) }
    ensures kept { (states : List StreamState) → AreKept states marks.old told.old → AreKept states marks.new told.new }
    ensures due { (states : List StreamState) → AreSettledBut states (names_among told.old) due.old → AreSettledBut states (names_among told.new) due.new }
{
    if stays || are_same(told.as_slice(), keys) {
        return Ok(());
    }
    let next = ToldKeys::of(alloc, keys)?;
    mark_changed(marks, told.as_slice(), keys);
    *told = next;
    *due = Due::Any;
    Ok(())
}

/// Tells the marked streams which keys are watched, which are these, and gives the requests that are due by it. All others are
/// settled. Where of one stream a kind is known of which alone a request may be due, no other kind is looked at. It fails for
/// want of memory alone, and then nothing is said of the streams that are marked.
pub fn tell_marked(
    alloc: Global,
    streams: &mut Vec<Stream>,
    marks: &mut StreamMarks,
    told: &mut ToldKeys,
    due: Due,
) -> Result<List<Sent>, Memory>
    requires kept { AreKept streams.old.items marks.old told.old }
    requires due { AreSettledBut streams.old.items (names_among told.old) due }
    ensures sent { IfOk result (λ sent. sent ≡ sent_first 0 (length streams.old.items) (names_among told.old) streams.old.items) }
    ensures state { OnOk result (streams.new.items ≡ told_first 0 (length streams.old.items) (names_among told.old) streams.old.items) }
    ensures kept { AreKept streams.new.items marks.new told.new }
    ensures told { told.new ≡ told.old }
{
    let mut sent = List::new(alloc);
    for place in marks.first()..marks.end() {
        if marks.is_marked(place) {
            let authority = Authority(place as u16);
            let kind = due.kind_at(place);
            tell(authority, &mut streams[place], told, kind, &mut sent)?;
        }
        marks.pass(place);
    }
    Ok(sent)
}
