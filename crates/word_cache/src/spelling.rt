//! Words under their spellings: found without normalising, and shaped by whatever shapes their
//! texts.
ghost use Rattle.std.specs.Prelude.{◌≡◌, ◌↔◌, false, IsTrue, IfOk, OnErr, Err, Ok};
ghost use Rattle.word_cache.specs.Keys;
ghost use Rattle.word_cache.specs.Spellings.{IsGivenTo, IsFreshSpelling};
ghost use Rattle.word_cache.specs.Words.{made, brought_first, HasKey};

use crate::key::WordKey;
use crate::shaping::{spelled, word_of};
use crate::words::{Word, WordCache};
use shape_buffer::buffer::{GlyphBuffer, ShapeError, UnicodeBuffer};
use std::alloc::{AllocError, Global};

/// The key of a spelling under a plan of this number: two spellings have one key exactly if they
/// are the same (`laws::spellings_have_own_keys`). Refuses only if a growth was refused.
pub fn spelling_key(alloc: Global, number: u32, spelling: &str) -> Result<WordKey, AllocError>
    ensures { IfOk result (λ key. key.items ≡ Keys.spelling_key number spelling.now) }
{
    let mut key = Vec::with_capacity(alloc, 1)?;
    key.push(number)?;
    for c in spelling.chars() {
        key.push(u32::from(c))?;
    }
    Ok(key)
}

/// Finds the word of a spelling, by a plan of this number, or has its text shaped and keeps it:
/// then it is the first word of the cache ([`WordCache::first`]). Whether it was found: exactly
/// if this spelling was kept under this number. `shape` gets the text of the spelling, with
/// nothing else set, and may be any call that shapes it, as `shape_with_script_plan`; what it
/// refuses is refused. Refuses besides with `Length` if the spelling has 4 GiB or more, and with
/// `Memory` if a growth was refused. A refused call changes nothing.
pub fn shape_spelling<F>(
    alloc: Global,
    cache: &mut WordCache,
    number: u32,
    spelling: &str,
    shape: F,
) -> Result<bool, ShapeError>
where
    F: FnOnce(UnicodeBuffer) -> Result<GlyphBuffer, ShapeError>,
    requires { F.pre shape (Keys.spelled spelling.now) }
    ensures found { let key = Keys.spelling_key number spelling.now in
        IfOk result (λ found. IsTrue found ↔ HasKey key cache.old.entries) }
    ensures known { let key = Keys.spelling_key number spelling.now in
        IfOk result (λ found. IsTrue found
        → cache.new ≡ made (brought_first key cache.old.entries) cache.old.limit) }
    ensures fresh { IfOk result (λ found. found ≡ false
        → IsFreshSpelling (F.post shape) number spelling.now cache.old cache.new) }
    ensures refused { OnErr result (cache.new ≡ cache.old) }
{
    let key = spelling_key(alloc, number, spelling)?;
    if cache.find(&key) {
        return Ok(true);
    }
    let word = given(alloc, spelling, shape)?;
    cache.keep(key, word)?;
    Ok(false)
}

/// The word that a spelling's text is shaped to.
fn given<F>(alloc: Global, spelling: &str, shape: F) -> Result<Word, ShapeError>
where
    F: FnOnce(UnicodeBuffer) -> Result<GlyphBuffer, ShapeError>,
    requires { F.pre shape (Keys.spelled spelling.now) }
    ensures { IfOk result (λ word. IsGivenTo (F.post shape) spelling.now word) }
{
    let text = spelled(alloc, spelling)?;
    let glyphs = shape(text)?;
    Ok(word_of(alloc, spelling, glyphs)?)
}
