//! The values of options of the output: what is written or drawn, and where.
use crate::failure::Failure;
use crate::options::{Format, Shown};
use clap::ArgMatches;
use glyph_pictures::{Look, colour_from_string, margins_from_string};
use shape_text_forms::SerializeFlags;
use std::alloc::Global;

/// Options that change what is written of glyphs.
const FORM_FLAGS: [(&str, u32); 7] = [
    ("no-glyph-names", SerializeFlags::NO_GLYPH_NAMES),
    ("no-positions", SerializeFlags::NO_POSITIONS),
    ("no-advances", SerializeFlags::NO_ADVANCES),
    ("no-clusters", SerializeFlags::NO_CLUSTERS),
    ("show-extents", SerializeFlags::GLYPH_EXTENTS),
    ("show-flags", SerializeFlags::GLYPH_FLAGS),
    (
        "ned",
        SerializeFlags::NO_CLUSTERS | SerializeFlags::NO_ADVANCES,
    ),
];

/// The colour of an option.
fn colour(alloc: Global, matches: &ArgMatches, name: &str) -> Result<Option<String>, Failure> {
    let Some(value) = matches.get_str(name) else {
        return Ok(None);
    };
    match colour_from_string(alloc, value)? {
        Some(colour) => Ok(Some(colour)),
        None => Err(Failure::value(
            alloc,
            name,
            value,
            "three, four, six or eight hexadecimal digits such as FFD700",
        )),
    }
}

/// How a picture looks.
pub fn look(alloc: Global, matches: &ArgMatches) -> Result<Look, Failure> {
    let margins = match matches.get_str("margin") {
        Some(value) => match margins_from_string(value) {
            Some(margins) => Some(margins),
            None => return Err(Failure::value(
                alloc,
                "margin",
                value,
                "one to four whole numbers up to 1000000",
            )),
        },
        None => None,
    };
    Ok(Look {
        background: colour(alloc, matches, "background")?,
        foreground: colour(alloc, matches, "foreground")?,
        margins,
    })
}

/// What is written of glyphs.
pub fn form_flags(matches: &ArgMatches) -> u32 {
    let mut flags = 0;
    for (name, flag) in FORM_FLAGS.iter() {
        if matches.get_flag(name) {
            flags |= *flag;
        }
    }
    flags
}

/// What is written before the glyphs of a line.
pub fn shown(matches: &ArgMatches) -> Shown {
    let all = matches.get_flag("verbose");
    Shown {
        text: all || matches.get_flag("show-text"),
        unicode: all || matches.get_flag("show-unicode"),
        line_num: all || matches.get_flag("show-line-num"),
    }
}

/// How lines are written: a format that is asked for, else by the ending of the output file's name.
fn written_format(
    alloc: Global,
    matches: &ArgMatches,
    asked: Option<&str>,
) -> Result<Format, Failure> {
    match asked {
        Some("text") => Ok(Format::Text),
        Some("json") => Ok(Format::Json),
        Some(other) => Err(Failure::value(alloc, "output-format", other, "text or json")),
        None
            if matches
                .get_str("output-file")
                .unwrap_or("")
                .ends_with(".json") => Ok(Format::Json),
        None => Ok(Format::Text),
    }
}

/// How lines are written or drawn; one way alone.
pub fn format(alloc: Global, matches: &ArgMatches) -> Result<Format, Failure> {
    let asked = matches.get_str("output-format");
    let html = matches.get_str("html").is_some();
    match (matches.get_flag("svg"), html, asked) {
        (true, true, _) => Err(Failure::both(alloc, "--svg", "--html")),
        (true, false, Some(_)) => Err(Failure::both(alloc, "--svg", "--output-format")),
        (false, true, Some(_)) => Err(Failure::both(alloc, "--html", "--output-format")),
        (true, false, None) => Ok(Format::Svg),
        (false, true, None) => Ok(Format::Html),
        (false, false, asked) => written_format(alloc, matches, asked),
    }
}

/// The name of the file to write to, none for standard output: a page has a name of its own, `-`
/// for standard output.
pub fn output(alloc: Global, matches: &ArgMatches) -> Result<Option<String>, Failure> {
    let name = match (matches.get_str("html"), matches.get_str("output-file")) {
        (Some(_), Some(_)) => return Err(Failure::both(alloc, "--html", "--output-file")),
        (Some("-"), None) | (None, None) => return Ok(None),
        (Some(name), None) | (None, Some(name)) => name,
    };
    Ok(Some(String::from_str(alloc, name)?))
}

/// Whether the font's axes are listed; not on a page.
pub fn axes(alloc: Global, matches: &ArgMatches) -> Result<bool, Failure> {
    let axes = matches.get_flag("list-axes");
    if axes && matches.get_str("html").is_some() {
        return Err(Failure::both(alloc, "--html", "--list-axes"));
    }
    Ok(axes)
}
