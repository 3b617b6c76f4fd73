//! Lists that are prepared and normalised, the premises of canonical form, and whole runs with
//! hooks that keep to no law.

/// What the test goes over.
pub const CASES: [&str; 5] = [PREPARED, NORMALISED, LONG_RUNS, PREMISES, RUNS];

const PREPARED: &str = "
    step: prepare
    # pairs of regional indicators
    1F1E6 1F1E6 1F1E6 1F1E6 -> 1F1E6@0 1F1E6+@0 1F1E6@8 1F1E6+@8
    # a text against its script is reversed
    settings: ltr
    05D0 1 -> 1@2 05D0@0
    # mirrored
    face: ( ) a
    settings: rtl
    ( a -> a@1 )@0
    # from bottom to top
    face: a 0301 b
    settings: btt by_character
    a 0301 b -> b@3 a@0 0301@0
";

const NORMALISED: &str = "
    step: normalise
    face: e 0301
    00E9 -> e@0 0301@0
    # the shortest expansion, the greatest, and one that the face has no glyph for
    face: A 0302 0301 00C2
    1EA4 -> 00C2@0 0301@0
    shaper: decomposed
    1EA4 -> A@0 0302@0 0301@0
    shaper: default
    face: A 0302 00C2
    1EA4 -> 1EA4=0@0
    # three spellings, and two without the composite
    shaper: recomposed
    face: e 0301 0323 1EB9 00E9
    00E9 0323 -> 1EB9 0301
    e 0301 0323 -> 1EB9 0301
    1EB9 0301 -> 1EB9 0301
    face: e 0301 0323 00E9
    00E9 0323 -> 00E9 0323
    e 0301 0323 -> 00E9 0323
    # a letter with an acute that has a mark below, in other modes
    face: e 0301 0323 1EB9 00E9
    shaper: shortest
    00E9 0323 -> 00E9 0323
    shaper: composed_diacritics
    00E9 0323 -> 1EB9 0301
    shaper: default
    00E9 0323 -> 1EB9 0301
    # a starter before keeps nothing from a new one
    shaper: recomposed
    face: a e 0301 0308 0323 00E9
    a 0308 e 0301 0323 -> a 0308 00E9 0323
    # CGJ between two marks stays hidden only if they are out of order
    shaper: decomposed
    face: every
    a 0301 034F 0323 -> a 0301 034F~ 0323
    a 0323 034F 0301 -> a 0323 034F 0301
    # marks that are put in order merge clusters
    settings: by_character
    a 0301 0323 -> a@0 0323@1 0301@1
    a 05BC 05C1 0301 0323 -> a@0 05C1@1 05BC@1 0323@5 0301@5
    # merging grows to the right, and to the left
    shaper: recomposed
    face: e 0301 0323 1EB9
    e 0301 0323 -> 1EB9@0 0301@0
    shaper: decomposed
    face: a 0301 0323
    settings: rtl by_character
    0323 a 0301 -> a@0 0323@0 0301@0
    # the dotted circle
    shaper: default
    face: 25CC 0301
    settings: beginning
    0301 -> 25CC@0 0301@0
    settings: beginning no_circle
    0301 -> 0301@0
    # no mark stands past the first character: two spellings are alike once they have the third mark
    shaper: decomposed
    face: 05E9 05BC 05C1 0323
    settings:
    FB2C -> 05E9 05BC 05C1
    05E9 05BC 05C1 -> 05E9 05C1 05BC
    step: compare
    FB2C / 05E9 05BC 05C1 -> no
    FB2C 0323 / 05E9 05BC 05C1 0323 -> yes
";

/// Marks after others of a greater ccc: in runs too long to be put in order, and when a hook has
/// exchanged them. All marks since the starter keep a mark from it, and not the last one alone.
const LONG_RUNS: &str = "
    step: normalise
    shaper: recomposed
    face: a b 0301 0308 0323 20DD 00E1
    # U+0308 has the ccc of U+0301 and keeps it from the letter, after any number of marks below
    a 0308 0323*31 0301 -> a 0308 0323*31 0301
    a 0308 0323*32 0301 -> a 0308 0323*32 0301
    a 0308 0323*1000 0301 -> a 0308 0323*1000 0301
    # of 32 marks those below come first, and U+0308 stands right before U+0301
    a 0308 0323*30 0301 -> a 0323*30 0308 0301
    # U+0301 composes past any number of marks below
    a 0323 0301 -> 00E1 0323
    a 0323*31 0301 -> 00E1 0323*31
    a 0323*32 0301 -> 00E1 0323*32
    a 0323*1000 0301 -> 00E1 0323*1000
    # what stands before a new starter keeps nothing from it
    a 0308 a 0301 -> a 0308 00E1
    a 0308*33 a 0301 -> a 0308*33 00E1
    # a letter, or a mark of ccc 0, among the marks keeps those after it from the starter before
    a b 0323 0301 -> a b 0323 0301
    a 0323 b 0323 0301 -> a 0323 b 0323 0301
    a 0323*33 b 0323 0301 -> a 0323*33 b 0323 0301
    a 20DD 0323 0301 -> a 20DD 0323 0301
    a 0323 20DD 0323 0301 -> a 0323 20DD 0323 0301
    a 0323*33 20DD 0323 0301 -> a 0323*33 20DD 0323 0301
    # a hook puts U+0308, or U+0301, before U+0323
    shaper: swapping
    a 0323 0308 0301 -> a 0308 0323 0301
    a 0323 0301 -> 00E1 0323
    # a run is counted by what is emitted, and U+0344 is two marks
    shaper: decomposed
    face: a 0301 0308 0323 0344
    a 0344*15 0323 -> a 0323 0308+0301*15
    a 0344*16 -> a 0308+0301*16
    a 0344*16 0323 -> a 0308+0301*16 0323
";

const PREMISES: &str = "
    step: premises
    shaper: decomposed
    face: q e 0301
    q 0301 00E9 -> yes
    q 0301 e 0301 -> yes
    00E9 -> yes
    0301 -> yes
    q e -> yes
    x -> no
    q 0301 x -> no
    q 0301 00EA -> no
    face: every
    q 0301 FE00 -> no
    # U+00E9 brings a mark of its own, and U+0344 is two marks
    q 0301*32 -> yes
    q 0301*33 -> no
    00E9 0301*31 -> yes
    00E9 0301*32 -> no
    q 0344*16 -> yes
    q 0344*17 -> no
    q 0301*32 q 0323*32 -> yes
    # in a mode that composes a mark must stand past the first character
    shaper: recomposed
    q 0301 00E9 -> yes
    00E9 -> no
    q e -> no
    shaper: default
    q 0301 00E9 -> no
    shaper: composed_diacritics
    q 0301 00E9 -> no
    shaper: shortest
    q 0301 00E9 -> no
";

const RUNS: &str = "
    step: place
    # no text
    face: 25CC
    settings: beginning
    ->
    # the first selector goes into the variant's glyph, the second one is hidden
    face: variant a
    settings: invisible=3
    a FE00 FE01 -> 7@0(0,0,0,0) 3@0(0,0,0,0)
    # a starter swallows its marks
    settings:
    shaper: absorbing
    face: a 0301
    a 0301 0301 -> 61@0(0,0,0,0)
    # the hook leaves U+0301 as a letter without a ccc: it is no mark after the b, and U+0323 isn't put before it
    shaper: changing
    face: every
    b a 0323 -> 62@0(0,0,0,0) 301@1(0,0,0,0) 323@1(0,0,0,0)
    # in the buffer of the text, from right to left
    step: in_place
    shaper: default
    settings: rtl
    a b -> 62@1 61@0
";
