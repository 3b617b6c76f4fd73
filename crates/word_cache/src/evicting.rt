//! How many bytes words take, and which of them go.
ghost use Rattle.std.specs.Prelude.{◌≡◌, ◌<◌, ◌^◌, length};
ghost use Rattle.word_cache.specs.Words.{entry, entry_bytes, shown, total, IsFront};

use crate::key::WordKey;
use crate::words::Word;
use lru::LruCache;

/// How many bytes a word takes with its key.
pub(super) fn bytes_of(key: &WordKey, word: &Word) -> u128
    ensures value { result ≡ entry_bytes (entry key.now.items word.now) }
    ensures few { result < 2 ^ 72 }
{
    4 * (key.len() as u128) + word.spelling.len() as u128 + 40 * (word.glyphs.len() as u128)
}

/// Takes out what was not used for longest, while the words, so many, take more bytes than they may
/// and there is another. Returns the bytes of those that are left.
pub(super) fn evicted(
    words: &mut LruCache<WordKey, Word>,
    count: usize,
    bytes: u128,
    limit: u64,
) -> u128
    requires count { count ≡ length words.old.entries }
    requires bytes { bytes ≡ total (shown words.old.entries) }
    ensures front { IsFront limit (shown words.old.entries) (shown words.new.entries) }
    ensures bytes { result ≡ total (shown words.new.entries) }
    ensures cap { words.new.cap ≡ words.old.cap }
{
    let mut bytes = bytes;
    let mut count = count;
    while count > 1 && bytes > u128::from(limit) {
        if let Some((key, word)) = words.pop_lru() {
            bytes -= bytes_of(&key, &word);
        }
        count -= 1;
    }
    bytes
}
