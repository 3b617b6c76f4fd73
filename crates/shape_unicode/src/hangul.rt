//! Hangul syllables, which split by arithmetic (The Unicode Standard, section 3.12).
ghost use Rattle.std.specs.Prelude.{◌≡◌, ◌<◌, true};
ghost use Rattle.unicode_normalization.specs.Hangul.{is_syllable};
ghost use Rattle.shape_unicode.specs.Split.{split_syllable};

/// The first syllable (SBase).
const S_BASE: u32 = 0xAC00;

/// The first leading consonant (LBase).
const L_BASE: u32 = 0x1100;

/// The first vowel (VBase).
const V_BASE: u32 = 0x1161;

/// The code point before the first trailing consonant (TBase).
const T_BASE: u32 = 0x11A7;

/// How many trailing consonants a syllable can have, none being one of them (TCount).
const T_COUNT: u32 = 28;

/// How many syllables have one and the same leading consonant (NCount).
const N_COUNT: u32 = 588;

/// How many syllables there are (SCount).
const S_COUNT: u32 = 11172;

/// Whether `c` is a Hangul syllable of one character.
pub(crate) fn is_syllable(c: char) -> bool
    ensures { result ≡ is_syllable c }
{
    c as u32 >= S_BASE && (c as u32) < S_BASE + S_COUNT
}

/// The character with a code below the surrogates.
fn below_surrogates(code: u32) -> char
    requires { code < 0xD800 }
    ensures { result ≡ code }
{
    char::from_u32(code).unwrap()
}

/// The parts of a syllable: that without its trailing consonant and this one, else its leading
/// consonant and its vowel.
pub(crate) fn split_syllable(c: char) -> (char, char)
    requires { is_syllable c ≡ true }
    ensures { result ≡ split_syllable c }
{
    let index = c as u32 - S_BASE;
    if index % T_COUNT == 0 {
        (
            below_surrogates(L_BASE + index / N_COUNT),
            below_surrogates(V_BASE + index % N_COUNT / T_COUNT),
        )
    } else {
        (
            below_surrogates(c as u32 - index % T_COUNT),
            below_surrogates(T_BASE + index % T_COUNT),
        )
    }
}
