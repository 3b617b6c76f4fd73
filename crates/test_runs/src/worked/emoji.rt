//! Graphemes of emoji over the whole database of Unicode, against the rules of UAX 29: pictographs
//! after a joiner (GB11), pairs of regional indicators (GB12, GB13), and what extends the character
//! before (GB9).
//!
//! Shaping differs in one place: a joiner joins a pictograph to whatever stands before it, while
//! GB11 asks for a pictograph there too.

pub const CASES: &str = "
    step: prepare
    # a family, and a girl by herself
    1F468 200D 1F469 200D 1F467 1F467 -> 1F468@0 200D@0 1F469@0 200D@0 1F467@0 1F467@18
    # a couple, a skin tone, a heart in style
    1F469 1F3FD 200D 2764 FE0F 200D 1F468 b -> 1F469@0 1F3FD@0 200D@0 2764@0 FE0F@0 200D@0 1F468@0 b@24
    # no pictograph is joined: a letter
    1F468 200D b 1F468 -> 1F468@0 200D@0 b@7 1F468@8
    # a regional indicator
    1F468 200D 1F1E6 1F468 -> 1F468@0 200D@0 1F1E6@7 1F468@11
    # a digit
    1F468 200D 1 1F468 -> 1F468@0 200D@0 1@7 1F468@8
    # after a letter, where UAX 29 has a boundary
    a 200D 1F469 1F469 -> a@0 200D@0 1F469@0 1F469@8
    # skin tones
    1F44B 1F3FB 1F44B a 1F3FF -> 1F44B@0 1F3FB@0 1F44B@8 a@12 1F3FF@12
    # flags of Germany and France, half a flag, and half a flag with an accent, which pairs with nothing after it
    1F1E9 1F1EA 1F1EB 1F1F7 1F1E9 - 1F1E9 0301 1F1EA 1F1EB 1F1F7 -> \
        1F1E9@0 1F1EA@0 1F1EB@8 1F1F7@8 1F1E9@16 -@20 1F1E9@21 0301@21 1F1EA@27 1F1EB@27 1F1F7@35
    # the flag of England, by tags, which are hidden; a key with 1; a digit
    1F3F4 E0067 E0062 E0065 E006E E0067 E007F 1 FE0F 20E3 2 -> \
        1F3F4@0 E0067~@0 E0062~@0 E0065~@0 E006E~@0 E0067~@0 E007F~@0 1@28 FE0F@28 20E3@28 2@35
    # a sequence stays as it is if its text is reversed
    settings: rtl by_character
    a 1F469 200D 1F467 1 20E3 -> 1@12 20E3@12 1F469@1 200D@1 1F467@1 a@0
";
