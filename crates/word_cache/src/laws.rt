//! Laws of caches of words: each function has laws as its contract, and nothing to do.
ghost use Rattle.word_cache.specs.Laws.{FoundStayShaped, FreshAreShaped, FoundIsFirst, FreshIsFirst};
ghost use Rattle.word_cache.specs.Spellings.{SpellingsDecide};

/// What a cache holds stays what shaping gives, if the plan of each number stays one: when a word
/// is found, and when one is shaped and kept.
pub fn words_stay_shaped()
    ensures found { FoundStayShaped }
    ensures fresh { FreshAreShaped }
{}

/// The word that was found or kept is the first, under the key that was asked for.
pub fn the_word_is_first()
    ensures found { FoundIsFirst }
    ensures fresh { FreshIsFirst }
{}

/// Two spellings have one key under one number exactly if they are the same.
pub fn spellings_have_own_keys()
    ensures { SpellingsDecide }
{}
