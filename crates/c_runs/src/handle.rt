//! A kept font behind a pointer, as C has it.
//!
//! C sees no value of Rattle's: [`luthgarn_font`] is a pointer and a number. What the pointer owns
//! stands in its type, so an export that is handed one finds the font there, or that there is none.
ghost use Rattle.std.specs.Prelude.{◌≡◌, Option, Some, None, is_some, nat_lt, true, MatchOption};
ghost use Rattle.opentype_layout.specs.declared.face.OpenTypeFace.{OpenTypeFace};

use crate::kept::KeptFont;
use crate::parts::Parts;
use std::alloc::{Allocator, Global};
use std::marker::Model;
use std::{mem, ptr};

/// A pointer to a kept font, which it owns, or to none.
#[repr(C)]
#[derive(Drop)]
pub struct font_pointer {
    at: *mut u8,
    alloc: Global,
    pub ghost face: { Option OpenTypeFace },
}

impl Model for font_pointer {
    ghost use Rattle.c_runs.specs.Owned.{owns_kept};
    ghost use Rattle.c_runs.specs.contracts.kept.KeptFont.{the_row};

    ghost also_owns = { λ p. owns_kept (⟦<Global as Allocator>⟧.dealloc_token p.alloc) the_row p.at p.face };
}

impl font_pointer {
    /// No font.
    fn none(alloc: Global) -> font_pointer
        ensures { result.face ≡ None }
    {
        font_pointer {
            at: ptr::null_mut(),
            alloc,
        }
    }

    /// The pointer of a box.
    fn of_parts(parts: Parts<KeptFont, Global>) -> font_pointer
        ensures { result.face ≡ Some parts.value }
    {
        let Parts { at, alloc } = parts;
        font_pointer {
            at: at as *mut u8,
            alloc,
        }
    }

    /// The parts of the box.
    fn into_parts(self) -> Parts<KeptFont, Global>
        requires { is_some self.face ≡ true }
        ensures { self.face ≡ Some result.value }
    {
        let font_pointer { at, alloc } = self;
        Parts {
            at: at as *mut KeptFont,
            alloc,
        }
    }
}

/// A font that is kept, or none: all zeros are none.
#[repr(C)]
#[derive(Drop)]
pub struct luthgarn_font {
    pub kept: font_pointer,
    is_open: u32,
    ghost known: { is_some kept.face ≡ nat_lt 0 is_open },
}

impl luthgarn_font {
    /// No font.
    fn none(alloc: Global) -> luthgarn_font
        ensures { result.kept.face ≡ None }
    {
        luthgarn_font {
            kept: font_pointer::none(alloc),
            is_open: 0,
        }
    }

    /// The font that is kept.
    pub fn of(kept: Box<KeptFont>) -> luthgarn_font
        ensures { result.kept.face ≡ Some kept.value }
    {
        luthgarn_font {
            kept: font_pointer::of_parts(Parts::of(kept)),
            is_open: 1,
        }
    }

    /// Takes the font out, if there is one, and leaves none.
    pub fn take(&mut self, alloc: Global) -> Option<Box<KeptFont>>
        ensures none { self.new.kept.face ≡ None }
        ensures taken { MatchOption result (self.old.kept.face ≡ None)
            (λ kept. self.old.kept.face ≡ Some kept.value) }
    {
        let old = mem::replace(self, luthgarn_font::none(alloc));
        if old.is_open == 0 {
            return None;
        }
        Some(old.kept.into_parts().into_box())
    }
}
