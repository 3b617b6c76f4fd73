//! The characters beside a text.
ghost use Rattle.std.specs.Prelude.{◌≡◌, ◌+◌, ◌-◌, ◌<◌, ◌≤◌, [], ◌∷◌, ◌++◌, length, drop};
ghost use Rattle.shape_buffer.specs.Text.{context_before, context_after};

use std::marker::Model;

/// How many characters of a context are kept.
pub const CONTEXT_LENGTH: usize = 5;

/// Up to five characters beside a text.
#[derive(Drop, Debug)]
pub(crate) struct Context {
    chars: [char; CONTEXT_LENGTH],
    len: usize,
}

impl Model for Context {
    ghost use Rattle.std.specs.Prelude.{List, ℕ, ◌≤◌, take};

    ghost Value = { List ℕ };

    ghost view = { λ context. take context.len context.chars };

    ghost invariant = { λ context. context.len ≤ 5 };
}

impl Context {
    /// No context.
    pub(crate) fn new() -> Self
        ensures { result ≡ [] }
    {
        Context {
            chars: ['\0'; CONTEXT_LENGTH],
            len: 0,
        }
    }

    /// The characters, in the order of the text.
    pub(crate) fn as_slice(&self) -> &[char]
        ensures value { result.now ≡ self.now }
        ensures len { length result.now ≤ 5 }
    {
        &self.chars[..self.len]
    }

    fn push(&mut self, c: char)
        requires { length self.old < 5 }
        ensures { self.new ≡ self.old ++ c ∷ [] }
    {
        self.chars[self.len] = c;
        self.len += 1;
    }

    fn remove_first(&mut self)
        requires { 0 < length self.old }
        ensures { self.new ≡ drop 1 self.old }
    {
        self.chars.copy_within(1.., 0);
        self.len -= 1;
    }

    /// Appends a character to the `kept` ones; the first one goes if all places are taken.
    fn push_last(&mut self, c: char, kept: usize)
        requires all { kept ≡ length self.old }
        requires fit { kept ≤ 5 }
        ensures { self.new ≡ drop (kept + 1 - 5) (self.old ++ c ∷ []) }
    {
        if kept < CONTEXT_LENGTH {
            self.push(c);
            return;
        }
        self.remove_first();
        self.push(c);
    }

    /// The first characters of a text, which comes after the one to be shaped.
    pub(crate) fn from_start(text: &str) -> Self
        ensures { result ≡ context_after text.now }
    {
        let mut context = Context::new();
        let mut kept = 0;
        for c in text.chars() {
            if kept == CONTEXT_LENGTH {
                return context;
            }
            context.push(c);
            kept += 1;
        }
        context
    }

    /// The last characters of a text, which comes before the one to be shaped.
    pub(crate) fn from_end(text: &str) -> Self
        ensures { result ≡ context_before text.now }
    {
        let mut context = Context::new();
        let mut kept = 0;
        for c in text.chars() {
            context.push_last(c, kept);
            kept = CONTEXT_LENGTH.min(kept + 1);
        }
        context
    }
}
