//! Texts of a bounded length.
ghost use Rattle.std.specs.Prelude.{◌≡◌, ◌≤◌, ◌<◌, ◌+◌, ◌++◌, true, false, length, string_bytes, IfOk};

use std::alloc::{AllocError, Global};

/// A text of at most so many bytes, made of parts: the first that would pass them is left out,
/// and all that follow it.
#[derive(Drop)]
pub(crate) struct Sheet {
    out: String,
    most: usize,
    full: bool,
    ghost within: { length (string_bytes out) ≤ most },
}

impl Sheet {
    /// A sheet without a part.
    pub(crate) fn new(alloc: Global, most: usize) -> Sheet
        ensures { result.most ≡ most }
    {
        Sheet {
            out: String::new(alloc),
            most,
            full: false,
        }
    }

    /// Whether a part was left out.
    pub(crate) fn is_full(&self) -> bool
        ensures { result ≡ self.now.full }
    {
        self.full
    }

    /// Its parts as one text.
    pub(crate) fn text(&self) -> &str
        ensures { length result.now ≤ self.now.most }
    {
        self.out.as_str()
    }

    /// Appends a part, or leaves it out.
    pub(crate) fn put(&mut self, part: &str) -> Result<(), AllocError>
        ensures most { self.new.most ≡ self.old.most }
        ensures appended { IfOk result (λ _. self.new.full ≡ false
            → string_bytes self.new.out ≡ string_bytes self.old.out ++ part.now) }
        ensures left_out { self.new.full ≡ true → string_bytes self.new.out ≡ string_bytes self.old.out }
        ensures for_want_of_room { self.new.full ≡ true → self.old.full ≡ false
            → self.new.most < length (string_bytes self.old.out) + length part.now }
    {
        let room = self.most.saturating_sub(self.out.len());
        if self.full || room < part.len() {
            self.full = true;
            return Ok(());
        }
        self.out.push_str(part)
    }
}
