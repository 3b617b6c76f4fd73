//! The cache: words under their keys, the most recently used first.
ghost use Rattle.std.specs.Prelude.{◌≡◌, ◌↔◌, ◌∷◌, [], false, IsTrue, IfOk, OnOk, OnErr, IfErr, length, slice_get, option_map, option_copied};
ghost use Rattle.word_cache.specs.Words.{made, entry, brought_first, total, HasKey, Keeps};

use crate::evicting::{bytes_of, evicted};
use crate::key::WordKey;
use lru::LruCache;
use shape_buffer::buffer::{GlyphBuffer, ShapeError};
use std::alloc::{AllocError, Global};
use std::marker::Model;

/// A word that was shaped: how it was spelled, and its glyphs.
#[derive(Drop, Debug)]
pub struct Word {
    pub spelling: String,
    pub glyphs: GlyphBuffer,
}

/// Shaped words under their keys. They take at most so many bytes, unless the last one takes more
/// alone.
#[derive(Drop)]
pub struct WordCache {
    words: LruCache<WordKey, Word>,
    bytes: u128,
    limit: u64,
}

impl Model for WordCache {
    ghost use Rattle.std.specs.Prelude.{◌≡◌, ◌-◌, ◌^◌, ◌<◌};
    ghost use Rattle.word_cache.specs.Words.{Words, made, shown, total};

    ghost Value = { Words };

    ghost view = { λ c. made (shown c.words.entries) c.limit };

    ghost invariant = { λ c. (c.bytes ≡ total (shown c.words.entries)) × (c.bytes < 2 ^ 73)
        × (c.words.cap ≡ 2 ^ 64 - 1) };
}

impl WordCache {
    /// A cache without words, which may take so many bytes. A word takes 4 bytes for each number of
    /// its key, those of its spelling, and 40 for each glyph.
    pub fn new(alloc: Global, limit: u64) -> Result<WordCache, AllocError>
        ensures { IfOk result (λ cache. cache ≡ made [] limit) }
    {
        Ok(WordCache {
            words: LruCache::unbounded(alloc)?,
            bytes: 0,
            limit,
        })
    }

    /// Whether there is a word with a key, which then is the most recently used. If there is none,
    /// nothing changes.
    pub fn find(&mut self, key: &WordKey) -> bool
        ensures found { IsTrue result ↔ HasKey key.now.items self.old.entries }
        ensures first { self.new ≡ made (brought_first key.now.items self.old.entries) self.old.limit }
        ensures absent { result ≡ false → self.new ≡ self.old }
    {
        self.words.promote(key)
    }

    /// Keeps a word under a key, as the most recently used, unless there is one already. What was
    /// not used for longest goes, while the words take more bytes than they may and there is
    /// another. Refuses with `Memory` alone, and keeps nothing then.
    pub fn keep(&mut self, key: WordKey, word: Word) -> Result<(), ShapeError>
        ensures known { HasKey key.items self.old.entries → self.new ≡ self.old }
        ensures kept { OnOk result ((HasKey key.items self.old.entries → ⊥)
            → Keeps (entry key.items word) self.old self.new) }
        ensures refused { OnErr result (self.new ≡ self.old) }
        ensures memory { IfErr result (λ e. e ≡ ShapeError.Memory) }
    {
        if self.words.contains(&key) {
            return Ok(());
        }
        let count = self.words.len() + 1;
        let bytes = self.bytes + bytes_of(&key, &word);
        self.words.put(key, word)?;
        self.bytes = evicted(&mut self.words, count, bytes, self.limit);
        Ok(())
    }

    /// The most recently used word.
    pub fn first(&self) -> Option<&Word>
        ensures { option_copied result ≡ option_map (λ e. e.word) (slice_get self.now.entries 0) }
    {
        match self.words.peek_mru() {
            Some((_, word)) => Some(word),
            None => None,
        }
    }

    /// How many words there are.
    pub fn len(&self) -> usize
        ensures { result ≡ length self.now.entries }
    {
        self.words.len()
    }

    /// How many bytes they take.
    pub fn bytes(&self) -> u128
        ensures { result ≡ total self.now.entries }
    {
        self.bytes
    }
}
