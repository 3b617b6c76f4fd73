//! Cases as lines of text, which all tests read alike.
//!
//! A line `ASKED -> WANTED` is a case: what is asked, and what must be found. A line `NAME: WORDS`
//! sets something for the cases below it. What stands after ` # ` is a remark. The proof of a test
//! takes time for each case that is code, and none for a line of text; so a test brings text alone,
//! and one function reads, runs and compares. What may be asked and set, and how answers are
//! printed, is said where it is read.

/// What a line of cases says, without spaces at the ends of its parts.
#[derive(Clone, Copy)]
pub enum Line<'a> {
    /// A case: what is asked, and what must be found.
    Case(&'a str, &'a str),
    /// Something that is set: its name, and its words. A line that is none of these is a name
    /// without words.
    Setting(&'a str, &'a str),
    /// Nothing: an empty line, or a remark.
    Nothing,
}

/// What a line of cases says.
pub fn line_of(line: &str) -> Line<'_> {
    let (line, _) = line.split_once(" # ").unwrap_or((line, ""));
    if let Some((asked, wanted)) = line.split_once("->") {
        return Line::Case(asked.trim(), wanted.trim());
    }
    let (name, words) = line.split_once(':').unwrap_or((line, ""));
    if name.trim().is_empty() {
        return Line::Nothing;
    }
    Line::Setting(name.trim(), words.trim())
}

/// What the case of a line asks, and what must be found. None if the line is no case.
pub fn case_of(line: &str) -> Option<(&str, &str)> {
    match line_of(line) {
        Line::Case(asked, wanted) => Some((asked, wanted)),
        _ => None,
    }
}
