//! Glyphs of whole runs, with clusters, positions and flags, over the whole database of Unicode.

/// What the test goes over.
pub const CASES: [&str; 3] = [PLACED, LEAST_EM, GREATEST_EM];

const PLACED: &str = "
    step: place
    # a joiner that is hidden, or removed where there is no space
    face: a=1(600) 0020=3(250)
    a 200C -> 1@0(600,0,0,0) 3@1(0,0,0,0)
    face: a=1(600)
    a 200C -> 1@0(600,0,0,0)
    settings: ltr
    200C a -> 1@0(600,0,0,0)
    settings: rtl
    200C a -> 1@0(600,0,0,0)
    # down the page
    settings: ttb
    a -> 1@0(0,-1000,-300,-1000)
    # from right to left
    face: (=1(500) )=2(500) a=3(600)
    settings: rtl
    ( a -> 3@1(600,0,0,0) 2@0(500,0,0,0)
    settings:
    face: 05D0=1(500) 05D1=2(450)
    05D0 05D1 -> 2@2(450,0,0,0) 1@0(500,0,0,0)
    # spaces of a width: a part of the em square, or of a digit
    face: 0020=3(250)
    2004 -> 3@0(333,0,0,0)
    200A -> 3@0(63,0,0,0)
    205F -> 3@0(222,0,0,0)
    face: a=1(600)
    a 2003 -> 1@0(600,0,0,0) 0@1(0,0,0,0)
    face: a=1(600) 0020=3(250)
    a 2003 -> 1@0(600,0,0,0) 3@1(1000,0,0,0)
    2007 -> 3@0(250,0,0,0)
    face: a=1(600) 0020=3(250) 7=4(510)
    2007 -> 3@0(510,0,0,0)
    # selectors without a variant; then there is a glyph for these
    face: a=1(600) 0020=3(250)
    a FE00 FE01 -> 1@0(600,0,0,0) 3@0(0,0,0,0) 3@0(0,0,0,0)
    settings: selector=9
    a FE00 FE01 -> 1@0(600,0,0,0) 9@0(0,0,0,0) 3@0(0,0,0,0)
    # marks above and below
    settings:
    face: a=1(600,0,700,600,-700) 0301=2(200,50,800,200,-150) 0323=4(200,50,-50,200,-100)
    a 0301 -> 1@0(600,0,0,0) 2@0(0,0,-450,112)
    a 0323 -> 1@0(600,0,0,0) 4@0(0,0,-450,-12)
    a 0301 0301 -> 1@0(600,0,0,0) 2@0(0,0,-450,112) 2@0(0,0,-450,324)
    settings: by_character
    a 0301 -> 1@0(600,0,0,0) 2@1(0,0,-450,112)/1
    # widths at the ends of their range, and a box whose height is at one of them
    settings:
    face: a=1(600) 0301=2(-2147483648)
    a 0301 -> 1@0(600,0,0,0) 2@0(0,0,-2147483648,0)
    face: a=1(2147483647,0,0,0,0) 0301=2(0,0,0,-2147483648,0)
    a 0301 -> 1@0(2147483647,0,0,0) 2@0(0,0,-2147483647,62)
    # without a gap the mark at 50 is drawn for a higher base, and comes down half of the way
    face: a=1(600,0,700,600,-700) 0301=2(200,50,800,200,-150)
    units: 1
    a 0301 -> 1@0(600,0,0,0) 2@0(0,0,-450,25)
    units: 15
    a 0301 -> 1@0(600,0,0,0) 2@0(0,0,-450,25)
    units: 16
    a 0301 -> 1@0(600,0,0,0) 2@0(0,0,-450,51)
    units: 65535
    a 0301 -> 1@0(600,0,0,0) 2@0(0,0,-450,4145)
";

/// The types of spaces that are a part of the em square, across and down the page, at the least
/// one.
const LEAST_EM: &str = "
    step: place
    face: 0020=3(7)
    units: 1
    2003 -> 3@0(1,0,0,0)
    2002 -> 3@0(1,0,0,0)
    2004 -> 3@0(0,0,0,0)
    2005 -> 3@0(0,0,0,0)
    2009 -> 3@0(0,0,0,0)
    2006 -> 3@0(0,0,0,0)
    200A -> 3@0(0,0,0,0)
    205F -> 3@0(0,0,0,0)
    settings: ttb
    2003 -> 3@0(0,-1,-3,-1)
    2002 -> 3@0(0,-1,-3,-1)
    2004 -> 3@0(0,0,-3,-1)
    205F -> 3@0(0,0,-3,-1)
";

/// The same at the greatest one.
const GREATEST_EM: &str = "
    step: place
    face: 0020=3(7)
    units: 65535
    2003 -> 3@0(65535,0,0,0)
    2002 -> 3@0(32768,0,0,0)
    2004 -> 3@0(21845,0,0,0)
    2005 -> 3@0(16384,0,0,0)
    2009 -> 3@0(13107,0,0,0)
    2006 -> 3@0(10923,0,0,0)
    200A -> 3@0(4096,0,0,0)
    205F -> 3@0(14563,0,0,0)
    settings: ttb
    2003 -> 3@0(0,-65535,-3,-65535)
    2002 -> 3@0(0,-32768,-3,-65535)
    2004 -> 3@0(0,-21845,-3,-65535)
    205F -> 3@0(0,-14563,-3,-65535)
";
