//! The words of a line, and the characters and numbers that they write.
//!
//! Words are separated by spaces alone. A digit is an ASCII digit; leading zeros are fine, and the
//! only sign is one minus before a signed number.
ghost use Rattle.std.specs.Prelude.{◌≡◌, ◌≤◌, ◌≢◌, ℕ, List, [], ◌∷◌, ◌++◌, ◌^◌, ◌<◌, length};
ghost use Rattle.std.specs.Prelude.{slice_index, All};
ghost use Rattle.std.specs.Option.{SomeIff, MatchOption};
ghost use Rattle.std.specs.Iterator.{at_most};
ghost use Rattle.std.specs.Str.Parse.{IsNumeral, digits_value, signed_digits_value};
ghost use Rattle.std.specs.Str.Parse.{without_leading_sign};
ghost use Rattle.shape_sessions.specs.Text.{IsCharacterWord};
ghost use Rattle.shape_sessions.specs.Words.{words};
ghost use mir.Syntax.{w32};
ghost use mir.Val.{SFits};

/// The words of a line that are left, from the first one on.
#[derive(Clone, Copy)]
pub struct Words<'a> {
    pub(crate) rest: &'a str,
}

impl<'a> Words<'a> {
    /// The words of a line.
    pub fn new(line: &'a str) -> Words<'a>
        ensures { result.rest.now ≡ line.now }
    {
        Words { rest: line }
    }

    /// The words before and after the first `/`, if that is a word by itself.
    pub fn parted(self) -> Option<(Words<'a>, Words<'a>)>
        ensures { MatchOption result
            ((before behind : List (List ℕ)) → All (All (λ b. b ≢ 47)) before
            → words self.entry.rest.now ≢ before ++ (47 ∷ []) ∷ behind)
            (λ sides. (words self.entry.rest.now
            ≡ words sides.0.rest.now ++ (47 ∷ []) ∷ words sides.1.rest.now)
            × All (λ b. b ≢ 47) sides.0.rest.now) }
    {
        let (first, second) = self.rest.split_once('/')?;
        let ends = first.is_empty() || first.ends_with(' ');
        let begins = second.is_empty() || second.starts_with(' ');
        if ends && begins {
            Some((Words::new(first), Words::new(second)))
        } else {
            None
        }
    }
}

impl<'a> Iterator for Words<'a> {
    type Item = &'a str;

    ghost remaining = { λ s. at_most (length s.rest.now) };

    ghost next_gives = { λ old word new. MatchOption word
        (words old.rest.now ≡ [])
        (λ w. words old.rest.now ≡ w.now ∷ words new.rest.now) };

    fn next(&mut self) -> Option<&'a str> {
        let text = self.rest.trim_start_matches(' ');
        if text.is_empty() {
            return None;
        }
        let (word, rest) = text.split_once(' ').unwrap_or((text, ""));
        self.rest = rest;
        Some(word)
    }
}

/// The number that a word of digits writes, below 2 to the 32. Refuses every other word.
fn digits(word: &str, radix: u32) -> Option<u32>
    requires low { 2 ≤ radix }
    requires high { radix ≤ 36 }
    ensures { SomeIff result (IsNumeral radix word.now × (digits_value radix word.now < 2 ^ 32))
        (digits_value radix word.now) }
{
    if word.starts_with('+') {
        return None;
    }
    u32::from_str_radix(word, radix).ok()
}

/// The character that one to six hexadecimal digits write. Refuses every other word, and a number
/// that is no character.
pub fn character(word: &str) -> Option<char>
    ensures { SomeIff result (IsCharacterWord word.now) (digits_value 16 word.now) }
{
    if word.len() > 6 {
        return None;
    }
    char::from_u32(digits(word, 16)?)
}

/// The number that decimal digits write. Refuses every other word, and a number above `most`.
pub fn natural(word: &str, most: u32) -> Option<u32>
    ensures { SomeIff result (IsNumeral 10 word.now × (digits_value 10 word.now ≤ most))
        (digits_value 10 word.now) }
{
    let number = digits(word, 10)?;
    if number <= most { Some(number) } else { None }
}

/// The number of 32 bits that decimal digits write, after one minus at most. Refuses every other
/// word.
pub fn integer(word: &str) -> Option<i32>
    ensures { SomeIff result ((slice_index word.now 0 ≢ 43)
        × IsNumeral 10 (without_leading_sign word.now)
        × SFits w32 (signed_digits_value 10 word.now)) (signed_digits_value 10 word.now) }
{
    if word.starts_with('+') {
        return None;
    }
    i32::from_str_radix(word, 10).ok()
}
