//! The laws that a regular expression may be sent to another thread, and shared with others, each as a call that asks for it.
use regex::Regex;

/// Asks for a value that may be sent to another thread.
fn is_sent<T: Send>(_value: &T) {}

/// Asks for a value that several threads may read at once.
fn is_shared<T: Sync>(_value: &T) {}

/// A regular expression may be sent to another thread.
pub fn regex_is_sent(regex: &Regex) {
    is_sent(regex);
}

/// Several threads may read a regular expression at once.
pub fn regex_is_shared(regex: &Regex) {
    is_shared(regex);
}
