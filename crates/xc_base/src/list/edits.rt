//! Members taken off a list's end.
ghost use Rattle.std.specs.Prelude.{◌≡◌, take};

use super::List;

impl<T: Drop> List<T> {
    /// Keeps the first `len` members, or all where it has no more. It takes no memory.
    pub fn truncate(&mut self, len: usize)
        ensures { self.new ≡ take len self.old }
    {
        self.items.truncate(len);
    }
}
