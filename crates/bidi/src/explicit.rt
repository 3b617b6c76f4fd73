//! The rules P2, P3 and X1 to X8: levels by embeddings, overrides and isolates.
ghost use Rattle.std.specs.Prelude.{◌≡◌, ℕ, ◌+◌, ◌<◌, ◌≤◌, ◌^◌, drop, length, reverse, true, false, All, Bool, IfOk, OnOk};
ghost use Rattle.bidi.specs.Explicit;
ghost use Rattle.bidi.specs.Explicit.{Stack as StackValue};
ghost use Rattle.bidi.specs.Weak.{next_class};

use crate::classes::{is, is_initiator, is_strong};
use std::alloc::{AllocError, Global};
use std::marker::Model;
use ucd_bidi::BidiClass;

/// BD2: the greatest level of an embedding.
pub const MAX_DEPTH: u8 = 125;

/// An entry of the directional status stack.
#[derive(Clone, Copy)]
pub(crate) struct Status {
    /// The level of the embedding.
    pub level: u8,
    /// The class that an override gives each character, or ON.
    pub forced: BidiClass,
    /// Whether the embedding is an isolate.
    pub isolate: bool,
}

/// A character after X1 to X8.
#[derive(Clone, Copy)]
pub struct Placed {
    /// Its level.
    pub level: u8,
    /// Its class, unless an override gives it another.
    pub class: BidiClass,
}

/// The directional status stack, and what overflowed it.
#[derive(Drop)]
pub(crate) struct Stack {
    top: Status,
    below: Vec<Status>,
    overflow_isolates: usize,
    overflow_embeddings: usize,
    isolates: usize,
}

impl Model for Stack {
    ghost Value = { StackValue };

    ghost view = { λ s. record {
      top = s.top;
      below = reverse s.below.items;
      overflow_isolates = s.overflow_isolates;
      overflow_embeddings = s.overflow_embeddings;
      isolates = s.isolates;
    } };

    ghost invariant = { λ s. Unit {0} };
}

/// P2 and P3: whether the first strong character from a place on is right to left. What stands in
/// isolates is passed over; the end of the isolate that the place is in ends the search, unless it
/// is that of a whole paragraph.
pub(crate) fn first_is_right(classes: &[BidiClass], start: usize, whole: bool) -> bool
    ensures { result ≡ Explicit.first_is_right whole 0 (drop start classes.now) }
{
    let mut depth: usize = 0;
    for i in start..classes.len() {
        let class = classes[i];
        if is_initiator(class) {
            depth += 1;
        } else if is(class, BidiClass::PopDirectionalIsolate) {
            if depth > 0 {
                depth -= 1;
            } else if !whole {
                return false;
            }
        } else if is_strong(class) && depth == 0 {
            return !is(class, BidiClass::LeftToRight);
        }
    }
    false
}

/// The least odd level above a level, or the least even one.
fn next_level(level: u8, right: bool) -> u32
    ensures level { result ≡ Explicit.next_level right level }
    ensures within { result ≤ 257 }
{
    let even = level % 2 == 0;
    if even == right {
        level as u32 + 1
    } else {
        level as u32 + 2
    }
}

impl Stack {
    /// X1: the stack of a paragraph, with an entry for its level.
    fn new(alloc: Global, level: u8) -> Stack
        ensures { result ≡ Explicit.stack_of level }
    {
        Stack {
            top: Status {
                level,
                forced: BidiClass::OtherNeutral,
                isolate: false,
            },
            below: Vec::new(alloc),
            overflow_isolates: 0,
            overflow_embeddings: 0,
            isolates: 0,
        }
    }

    /// Whether an embedding or isolate in a direction is valid.
    fn has_room(&self, right: bool) -> bool
        ensures { result ≡ Explicit.has_room right self.now }
    {
        self.overflow_isolates == 0
            && self.overflow_embeddings == 0
            && next_level(self.top.level, right) <= MAX_DEPTH as u32
    }

    /// Puts an entry on the stack.
    fn push(&mut self, right: bool, forced: BidiClass, isolate: bool) -> Result<(), AllocError>
        requires { Explicit.has_room right self.old ≡ true }
        ensures { OnOk result (self.new ≡ Explicit.pushed
            (record { level = Explicit.next_level right self.old.top.level; forced = forced; isolate = isolate }) self.old) }
    {
        self.below.push(self.top)?;
        self.top = Status {
            level: next_level(self.top.level, right) as u8,
            forced,
            isolate,
        };
        Ok(())
    }

    /// X2 to X5: an embedding or an override begins.
    fn embed(&mut self, right: bool, forced: BidiClass) -> Result<(), AllocError>
        requires { self.old.overflow_embeddings + 1 < 2 ^ 64 }
        ensures { OnOk result (self.new ≡ Explicit.embedded right forced self.old) }
    {
        if self.has_room(right) {
            self.push(right, forced, false)?;
        } else if self.overflow_isolates == 0 {
            self.overflow_embeddings += 1;
        }
        Ok(())
    }

    /// X5a to X5c: an isolate begins.
    fn isolate(&mut self, right: bool) -> Result<(), AllocError>
        requires isolates { self.old.isolates + 1 < 2 ^ 64 }
        requires overflow { self.old.overflow_isolates + 1 < 2 ^ 64 }
        ensures { OnOk result (self.new ≡ Explicit.isolated right self.old) }
    {
        if self.has_room(right) {
            self.push(right, BidiClass::OtherNeutral, true)?;
            self.isolates += 1;
        } else {
            self.overflow_isolates += 1;
        }
        Ok(())
    }

    /// Takes the entries up to the last isolate off the stack, and that isolate.
    fn pop_isolate(&mut self)
        ensures { self.new ≡ Explicit.with_entries self.old (Explicit.up_to_isolate self.old.top self.old.below) }
    {
        while let Some(status) = self.below.pop() {
            let isolate = self.top.isolate;
            self.top = status;
            if isolate {
                return;
            }
        }
    }

    /// X6a: an isolate ends.
    fn close(&mut self)
        ensures { self.new ≡ Explicit.closed self.old }
    {
        if self.overflow_isolates != 0 {
            self.overflow_isolates -= 1;
        } else if self.isolates != 0 {
            self.overflow_embeddings = 0;
            self.pop_isolate();
            self.isolates -= 1;
        }
    }

    /// X7: an embedding or an override ends.
    fn terminate(&mut self)
        ensures { self.new ≡ Explicit.terminated self.old }
    {
        if self.overflow_isolates != 0 {
            return;
        }
        if self.overflow_embeddings != 0 {
            self.overflow_embeddings -= 1;
            return;
        }
        if self.top.isolate {
            return;
        }
        if let Some(status) = self.below.pop() {
            self.top = status;
        }
    }

    /// X8: the paragraph ends.
    fn clear(&mut self, level: u8)
        ensures { self.new ≡ Explicit.stack_of level }
    {
        self.below.clear();
        self.top = Status {
            level,
            forced: BidiClass::OtherNeutral,
            isolate: false,
        };
        self.overflow_isolates = 0;
        self.overflow_embeddings = 0;
        self.isolates = 0;
    }
}

impl Stack {
    /// X5c: whether the text after an FSI is right to left. Where the isolate isn't valid, this
    /// changes nothing, and isn't looked up, so that a text takes time in step with its length.
    fn first(&self, classes: &[BidiClass], place: usize) -> bool
        requires { place < length classes.now }
        ensures { (base : ℕ) → Explicit.stepped base result (next_class (drop place classes.now)) self.now
            ≡ Explicit.stepped base (Explicit.first_is_right false 0 (drop (place + 1) classes.now))
            (next_class (drop place classes.now)) self.now }
    {
        if !is(classes[place], BidiClass::FirstStrongIsolate) {
            return false;
        }
        if !self.has_room(true) && !self.has_room(false) {
            return false;
        }
        first_is_right(classes, place + 1, false)
    }

    /// X2 to X8 for a character, given the level of the paragraph and whether text after an FSI is
    /// right to left.
    fn step(&mut self, base: u8, class: BidiClass, right: bool) -> Result<(), AllocError>
        requires embeddings { self.old.overflow_embeddings + 1 < 2 ^ 64 }
        requires isolates { self.old.isolates + 1 < 2 ^ 64 }
        requires overflow { self.old.overflow_isolates + 1 < 2 ^ 64 }
        ensures { OnOk result (self.new ≡ Explicit.stepped base right class self.old) }
    {
        match class {
            BidiClass::RightToLeftEmbedding => self.embed(true, BidiClass::OtherNeutral)?,
            BidiClass::LeftToRightEmbedding => self.embed(false, BidiClass::OtherNeutral)?,
            BidiClass::RightToLeftOverride => self.embed(true, BidiClass::RightToLeft)?,
            BidiClass::LeftToRightOverride => self.embed(false, BidiClass::LeftToRight)?,
            BidiClass::RightToLeftIsolate => self.isolate(true)?,
            BidiClass::LeftToRightIsolate => self.isolate(false)?,
            BidiClass::FirstStrongIsolate => self.isolate(right)?,
            BidiClass::PopDirectionalIsolate => self.close(),
            BidiClass::PopDirectionalFormat => self.terminate(),
            BidiClass::ParagraphSeparator => self.clear(base),
            _ => {}
        }
        Ok(())
    }
}

/// The level and the class of a character, given the entries before and after it.
fn place_between(base: u8, before: Status, after: Status, class: BidiClass) -> Placed
    ensures { result ≡ Explicit.placed base before after class }
{
    if is(class, BidiClass::PopDirectionalIsolate) {
        return after.place(class);
    }
    if is(class, BidiClass::ParagraphSeparator) {
        return Placed { level: base, class };
    }
    before.place(class)
}

/// X1 to X8: the level of each character, and the class that overrides leave it. Takes time in step
/// with the text, and refuses if memory runs out.
pub fn explicit(alloc: Global, classes: &[BidiClass], base: u8) -> Result<Vec<Placed>, AllocError>
    ensures placed { IfOk result (λ placed. placed.items ≡ Explicit.explicit base classes.now) }
    ensures within { base ≤ 125 → IfOk result (λ placed. All (λ p. p.level ≤ 125) placed.items) }
{
    let placed = place_all(alloc, classes, base)?;
    Ok(placed)
}

/// The levels and the classes themselves.
fn place_all(alloc: Global, classes: &[BidiClass], base: u8) -> Result<Vec<Placed>, AllocError>
    ensures { IfOk result (λ placed. placed.items ≡ Explicit.explicit base classes.now) }
{
    let mut all = Vec::with_capacity(alloc, classes.len())?;
    let mut stack = Stack::new(alloc, base);
    for i in 0..classes.len() {
        let class = classes[i];
        let before = stack.top;
        let right = stack.first(classes, i);
        stack.step(base, class, right)?;
        all.push(place_between(base, before, stack.top, class))?;
    }
    Ok(all)
}

impl Status {
    /// X5a to X6a: a character of the embedding.
    fn place(self, class: BidiClass) -> Placed
        ensures { result ≡ Explicit.placed_by self class }
    {
        Placed {
            level: self.level,
            class: if is(self.forced, BidiClass::OtherNeutral) {
                class
            } else {
                self.forced
            },
        }
    }
}
