//! The streams of all authorities, in the words of the history.
ghost use Rattle.std.specs.Prelude.{◌≡◌, ◌<◌, ◌≤◌, ◌∷◌, ℕ, length, slice_set, slice_get, List, [], true, Some, None, OnOk, OnErr, IfOk, IfSome, is_some};
ghost use Rattle.ads_stream.specs.declared.stream.StreamState.{StreamState};
ghost use Rattle.ads_stream.specs.StreamSteps.{opened, lost, of_kind, verdict_of, response_taken};
ghost use Rattle.std.specs.Option.{option_copied};
ghost use Rattle.proto_discovery.specs.declared.response.Response.{Response};
ghost use Rattle.config_assembly.specs.Orders.{Name};
ghost use Rattle.xds_history.specs.declared.turns.Turn.{Turn};
ghost use Rattle.xds_history.specs.Streams.{is_up, turn_by};
ghost use Rattle.call_journal.specs.declared.event.DriverEvent.{DriverEvent};
ghost use Rattle.call_journal.specs.declared.reply.DriverReply.{DriverReply};
ghost use Rattle.call_journal.specs.declared.entry.Entry.{Entry};
ghost use Rattle.xds_history.specs.Setting.{Setting};
ghost use Rattle.xds_history.specs.Responses.{Came, answered_kind, is_asked, verdict};
ghost use Rattle.xds_history.specs.Requests.{requests};
ghost use Rattle.xds_history.specs.Pages.{came};
ghost use Rattle.xds_history.specs.declared.page.Watched.{Watched as WatchedValue};
ghost use Rattle.book_streams.specs.StreamsKept.{names_among, states_of, states_with, watched_keys};
ghost use Rattle.book_streams.specs.StreamsLaws.{IsTold, authority_in, came_with, turned_state, entry_of, lost_if, response_came};
ghost use Rattle.book_streams.specs.Telling.{told_first, sent_first};

use crate::due_requests::Due;
use crate::event_turns::{authority_in, turn_by};
use crate::marked_streams::{tell_marked, watch};
use crate::stream_marks::StreamMarks;
use crate::told_keys::ToldKeys;
use ads_stream::{Stream, Verdict};
use call_journal::{DriverEvent, Sent};
use std::alloc::Global;
use std::marker::Model;
use std::mem::replace;
use xc_base::{Authority, Key, Kind, List, Memory, Node, Text};
use xds_history::Turn;

/// A stream for each authority, in the order of the bootstrap; there are at most 65,536. Nothing is due on a stream that isn't
/// marked, by the keys that were told last, and of one that is it may be known that only an answer is. Contracts see the states
/// of the streams, and these keys.
#[derive(Drop)]
pub struct Streams {
    alloc: Global,
    streams: Vec<Stream>,
    marks: StreamMarks,
    told: ToldKeys,
    due: Due,
}

impl Model for Streams {
    ghost use Rattle.book_streams.specs.StreamsKept.{StreamsKept, names_among};
    ghost use Rattle.book_streams.specs.DueRequests.{AreSettledBut};
    ghost use Rattle.book_streams.specs.Settling.{AreKept};

    ghost Value = { StreamsKept };

    ghost view = { λ b. record { states = b.streams.items; told = b.told } };

    ghost invariant = { λ b. AreKept b.streams.items b.marks b.told × AreSettledBut b.streams.items (names_among b.told) b.due };
}

/// A copy of a node.
fn copy_of(node: &Node) -> Result<Node, Memory>
    ensures { IfOk result (λ copy. copy ≡ node.now) }
{
    node.clone()
}

/// The verdict on a loss.
fn verdict_if(was_up: bool) -> Verdict
    ensures { result ≡ lost_if was_up }
{
    if was_up {
        Verdict::Done
    } else {
        Verdict::Closed
    }
}

impl Streams {
    /// So many streams that were never opened, of this node, and that were told no keys. It fails for want of memory alone.
    pub fn new(alloc: Global, node: &Node, count: usize) -> Result<Streams, Memory>
        requires { count ≤ 65536 }
        ensures after { IfOk result (λ streams. (s : Setting) → s.node ≡ node.now → s.authorities ≡ count → streams.states ≡ states_of s []) }
        ensures told { IfOk result (λ streams. streams.told ≡ []) }
    {
        let mut streams = Vec::new(alloc);
        for place in 0..count {
            streams.push(Stream::new(alloc, copy_of(node)?))?;
        }
        let marks = StreamMarks::new(alloc, count)?;
        Ok(Streams {
            alloc,
            streams,
            marks,
            told: ToldKeys::new(alloc),
            due: Due::Any,
        })
    }

    /// How many they are.
    pub fn len(&self) -> usize
        ensures { result ≡ length self.now.states }
    {
        self.streams.len()
    }

    /// Opens the stream at a place.
    fn open(&mut self, place: usize)
        requires { place < length self.old.states }
        ensures state { (state : StreamState) → slice_get self.old.states place ≡ Some state → self.new.states ≡ slice_set self.old.states place (opened state) }
        ensures told { self.new.told ≡ self.old.told }
    {
        self.due = Due::Any;
        self.marks.mark(place);
        self.streams[place].opened();
    }

    /// Ends the stream at a place, and answers whether it was up.
    #[tactic(auto, using(crate::proofs::TellLemmas::kept_marked, crate::proofs::DueLemmas::any_settled))]
    fn lose(&mut self, place: usize) -> bool
        requires { place < length self.old.states }
        ensures was_up { (state : StreamState) → slice_get self.old.states place ≡ Some state → result ≡ state.is_up }
        ensures state { (state : StreamState) → slice_get self.old.states place ≡ Some state → self.new.states ≡ slice_set self.old.states place (lost state) }
        ensures told { self.new.told ≡ self.old.told }
    {
        self.due = Due::Any;
        self.marks.mark(place);
        self.streams[place].lost()
    }

    /// Takes in a response on the stream at a place.
    fn respond(
        &mut self,
        place: usize,
        kind: Kind,
        version: &Text,
        nonce: &Text,
        error: Option<&Text>,
    ) -> Result<Verdict, Memory>
        requires { place < length self.old.states }
        ensures verdict { IfOk result (λ verdict. (state : StreamState) → slice_get self.old.states place ≡ Some state → verdict ≡ verdict_of state kind (option_copied error.entry)) }
        ensures ok { OnOk result ((state : StreamState) → slice_get self.old.states place ≡ Some state → self.new.states ≡ slice_set self.old.states place (response_taken state kind version.now nonce.now (option_copied error.entry))) }
        ensures told { self.new.told ≡ self.old.told }
        ensures err { OnErr result (self.new ≡ self.old) }
    {
        self.due = Due::after_response(place, kind, self.marks.is_marked(place));
        self.marks.mark(place);
        self.streams[place].response(kind, version, nonce, error)
    }

    /// Whether the stream at a place is up.
    fn up_at(&self, place: usize) -> bool
        requires { place < length self.now.states }
        ensures { (state : StreamState) → slice_get self.now.states place ≡ Some state → result ≡ state.is_up }
    {
        self.streams[place].is_up()
    }

    /// Whether the stream of an authority is up. It takes no memory.
    pub fn is_up(&self, authority: Authority) -> bool
        requires { authority.0 < length self.now.states }
        ensures { (s : Setting) (past : List Entry) → self.now.states ≡ states_of s past → result ≡ is_up authority past }
    {
        self.up_at(authority.0 as usize)
    }

    /// Whether a kind was asked for on the stream at a place.
    fn asked_at(&self, place: usize, kind: Kind) -> bool
        requires { place < length self.now.states }
        ensures { (state : StreamState) → slice_get self.now.states place ≡ Some state → result ≡ is_some (of_kind state kind).asked }
    {
        self.streams[place].is_asked(kind)
    }

    /// Whether resources of a kind were asked for on the stream of an authority, which then is up. It takes no memory.
    pub fn is_asked(&self, authority: Authority, kind: Kind) -> bool
        requires { authority.0 < length self.now.states }
        ensures { (s : Setting) (past : List Entry) → self.now.states ≡ states_of s past → result ≡ is_asked authority kind past }
    {
        self.asked_at(authority.0 as usize, kind)
    }

    /// The stream of an authority was opened, in place of the one that was open, if any: its nonces are gone and its versions
    /// stay (Envoy's xDS transport, "ACK and NACK"). It takes no memory.
    pub fn opened(&mut self, authority: Authority)
        requires { authority.0 < length self.old.states }
        ensures after { (s : Setting) (c : Came) (past : List Entry) → c.event ≡ DriverEvent.Opened authority → self.old.states ≡ states_of s past → self.new.states ≡ states_with s c past }
        ensures told { self.new.told ≡ self.old.told }
    {
        self.open(authority.0 as usize);
    }

    /// The stream of an authority was lost. The verdict is Closed where it wasn't up, else Done. It takes no memory.
    pub fn lost(&mut self, authority: Authority) -> Verdict
        requires { authority.0 < length self.old.states }
        ensures verdict { (s : Setting) (past : List Entry) (refused : List Name) → self.old.states ≡ states_of s past → result ≡ verdict s past (DriverEvent.Lost authority) refused }
        ensures after { (s : Setting) (c : Came) (past : List Entry) → c.event ≡ DriverEvent.Lost authority → self.old.states ≡ states_of s past → self.new.states ≡ states_with s c past }
        ensures told { self.new.told ≡ self.old.told }
    {
        let was_up = self.lose(authority.0 as usize);
        verdict_if(was_up)
    }

    /// What came ends the stream of an authority: bytes that are broken, or a response that can't be read. It takes no memory.
    pub fn end(&mut self, authority: Authority)
        requires { authority.0 < length self.old.states }
        ensures after { (s : Setting) (c : Came) (past : List Entry) → turn_by authority c.event c.verdict ≡ Turn.Ends → self.old.states ≡ states_of s past → self.new.states ≡ states_with s c past }
        ensures told { self.new.told ≡ self.old.told }
    {
        let _ = self.lose(authority.0 as usize);
    }

    /// Lets the stream at a place turn.
    fn turn_at(&mut self, place: usize, turn: Turn)
        requires { place < length self.old.states }
        ensures state { (state : StreamState) → slice_get self.old.states place ≡ Some state → self.new.states ≡ slice_set self.old.states place (turned_state turn state) }
        ensures told { self.new.told ≡ self.old.told }
    {
        match turn {
            Turn::Opens => self.open(place),
            Turn::Ends => {
                let _ = self.lose(place);
            }
            Turn::Stays => {}
        }
    }

    /// An event that is answered with neither an Ack nor a Nack: it opens a stream, ends one, or leaves all. It takes no
    /// memory.
    pub fn turn(&mut self, event: &DriverEvent, verdict: Verdict)
        requires { IfSome (authority_in event.now) (λ a. a.0 < length self.old.states) }
        ensures after { (s : Setting) (past : List Entry) (refused : List Name) → answered_kind verdict ≡ None → self.old.states ≡ states_of s past → self.new.states ≡ states_with s (came_with event.now verdict refused) past }
        ensures told { self.new.told ≡ self.old.told }
    {
        match authority_in(event) {
            None => {}
            Some(authority) => {
                let turn = turn_by(authority, event, verdict);
                self.turn_at(authority.0 as usize, turn);
            }
        }
    }

    /// A response of a kind came on the stream of an authority, with the text of its refusal where a part of it is
    /// refused. Where the kind wasn't asked for, the text doesn't matter. It fails for want of memory alone, and then the
    /// streams are as before.
    pub fn response(
        &mut self,
        authority: Authority,
        kind: Kind,
        version: &Text,
        nonce: &Text,
        error: Option<&Text>,
    ) -> Result<Verdict, Memory>
        requires { authority.0 < length self.old.states }
        ensures verdict { (s : Setting) (past : List Entry) (payload : List ℕ) (r : Response) (refused : List Name) → self.old.states ≡ states_of s past → IsTold s authority past payload r kind version.now nonce.now refused (option_copied error.entry) → IfOk result (λ v. v ≡ verdict s past (DriverEvent.Response authority payload) refused) }
        ensures after { (s : Setting) (past : List Entry) (payload : List ℕ) (r : Response) (refused : List Name) → self.old.states ≡ states_of s past → IsTold s authority past payload r kind version.now nonce.now refused (option_copied error.entry) → OnOk result (self.new.states ≡ states_with s (response_came authority payload (verdict s past (DriverEvent.Response authority payload) refused) refused) past) }
        ensures told { self.new.told ≡ self.old.told }
        ensures err { OnErr result (self.new ≡ self.old) }
    {
        let verdict = self.respond(authority.0 as usize, kind, version, nonce, error)?;
        Ok(verdict)
    }

    /// Tells each stream which keys are watched. Those that aren't marked, and whose names are the same as before, aren't
    /// looked at. Where only an answer may be due on one, no other kind is.
    fn tell_all(&mut self, keys: &[Key], stays: bool) -> Result<List<Sent>, Memory>
        requires stays { stays ≡ true → keys.now ≡ self.old.told }
        ensures sent { IfOk result (λ sent. sent ≡ sent_first 0 (length self.old.states) (names_among keys.now) self.old.states) }
        ensures state { OnOk result (self.new.states ≡ told_first 0 (length self.old.states) (names_among keys.now) self.old.states) }
        ensures told { OnOk result (self.new.told ≡ keys.now) }
    {
        watch(
            self.alloc,
            &mut self.marks,
            &mut self.told,
            &mut self.due,
            keys,
            stays,
        )?;
        let due = replace(&mut self.due, Due::Any);
        let sent = tell_marked(
            self.alloc,
            &mut self.streams,
            &mut self.marks,
            &mut self.told,
            due,
        )?;
        Ok(sent)
    }

    /// Tells each stream which keys are watched once something came, and gives the requests that are due by it: those to
    /// authority 0 first, and for each authority in the order of the kinds. Where the caller says that the keys are those that
    /// were told last, they are neither compared nor copied. It fails for want of memory alone, and then nothing is said of the
    /// streams.
    pub fn names(&mut self, keys: &[Key], stays: bool) -> Result<List<Sent>, Memory>
        requires stays { stays ≡ true → keys.now ≡ self.old.told }
        ensures sent { (s : Setting) (c : Came) (past : List Entry) (watched : List WatchedValue) → keys.now ≡ watched_keys watched → self.old.states ≡ states_with s c past → IfOk result (λ sent. sent ≡ requests s c past watched) }
        ensures after { (s : Setting) (actor line : ℕ) (event : DriverEvent) (reply : DriverReply) (past : List Entry) (watched : List WatchedValue) → keys.now ≡ watched_keys watched → self.old.states ≡ states_with s (came event reply) past → reply.sent ≡ requests s (came event reply) past watched → OnOk result (self.new.states ≡ states_of s (entry_of actor line event reply ∷ past)) }
        ensures told { OnOk result (self.new.told ≡ keys.now) }
    {
        let sent = self.tell_all(keys, stays)?;
        Ok(sent)
    }
}
