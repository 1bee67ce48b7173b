//! The laws that a channel may be sent to another thread, and shared with others, and so may what its threads hold, each as a
//! call that asks for it.
use channel_calls::{Channel, Job, Lane};
use cluster_tree::Snapshot;

/// Asks for a value that may be sent to another thread.
fn is_sent<T: Send>(_value: &T) {}

/// Asks for a value that several threads may read at once.
fn is_shared<T: Sync>(_value: &T) {}

/// A snapshot may be sent to another thread.
pub fn snapshot_is_sent(snapshot: &Snapshot) {
    is_sent(snapshot);
}

/// Several threads may read a snapshot at once.
pub fn snapshot_is_shared(snapshot: &Snapshot) {
    is_shared(snapshot);
}

/// The lane of an actor may be sent to another thread.
pub fn lane_is_sent<J: Job + Send>(lane: &Lane<J>) {
    is_sent(lane);
}

/// A channel may be sent to another thread.
pub fn channel_is_sent<J: Job + Send>(channel: &Channel<J>) {
    is_sent(channel);
}

/// Several threads may act on a channel at once.
pub fn channel_is_shared<J: Job + Send>(channel: &Channel<J>) {
    is_shared(channel);
}
