//! A list of at most three tags, which takes no memory.
ghost use Rattle.std.specs.Prelude.{◌≡◌, ◌≤◌, [], ◌∷◌, ◌++◌, length, take};

use shape_common::hb_tag_t;
use std::marker::Model;

/// How many tags a script or a language has at most.
pub const MOST_TAGS: usize = 3;

/// At most three tags, the preferred one first.
#[derive(Drop, Debug)]
pub struct TagList {
    tags: [hb_tag_t; MOST_TAGS],
    count: usize,
}

impl Model for TagList {
    ghost use Rattle.std.specs.Prelude.{List, ◌≤◌, take};
    ghost use Rattle.shape_common.specs.declared.text_types.hb_tag_t.{hb_tag_t};

    ghost Value = { List hb_tag_t };

    ghost view = { λ list. take list.count list.tags };

    ghost invariant = { λ list. list.count ≤ 3 };
}

impl TagList {
    /// No tag.
    pub fn new() -> Self
        ensures { result ≡ [] }
    {
        TagList {
            tags: [hb_tag_t(0); MOST_TAGS],
            count: 0,
        }
    }

    /// The tags, the preferred one first.
    pub fn as_slice(&self) -> &[hb_tag_t]
        ensures value { result.now ≡ self.now }
        ensures at_most_three { length result.now ≤ 3 }
    {
        &self.tags[..self.count]
    }

    /// Appends a tag, if fewer than three are there.
    pub(crate) fn push(&mut self, tag: hb_tag_t)
        ensures { self.new ≡ take 3 (self.old ++ tag ∷ []) }
    {
        if self.count < MOST_TAGS {
            self.tags[self.count] = tag;
            self.count += 1;
        }
    }

    /// One tag alone.
    pub(crate) fn one(tag: u32) -> Self
        ensures { result ≡ record { 0 = tag } ∷ [] }
    {
        let mut list = TagList::new();
        list.push(hb_tag_t(tag));
        list
    }

    /// Two tags.
    pub(crate) fn two(first: u32, second: u32) -> Self
        ensures { result ≡ record { 0 = first } ∷ record { 0 = second } ∷ [] }
    {
        let mut list = TagList::one(first);
        list.push(hb_tag_t(second));
        list
    }
}
