//! The definitions, computed on small cases whose results were worked out by hand.
ghost use Rattle.word_cache.specs.Worked.Kept.{WorkedKept};
ghost use Rattle.word_cache.specs.Worked.Words.{WorkedWords};

/// Which word is found, which of them go, and that keys of two plans differ.
pub fn words_meet_worked_cases()
    ensures { WorkedWords }
{}

/// Keys of texts, what a word takes, what is kept and held, and what is too long.
pub fn kept_words_meet_worked_cases()
    ensures { WorkedKept }
{}
