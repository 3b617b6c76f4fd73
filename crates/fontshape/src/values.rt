//! The values of options of the input and of shaping: what each takes, and what is said of one that
//! it doesn't take.
ghost use Rattle.std.specs.Prelude.{◌≡◌};

use crate::failure::Failure;
use crate::options::Source;
use crate::size::size_from_string;
use crate::unicodes::text_of_numbers;
use clap::ArgMatches;
use font_sizes::Size;
use font_variations::coordinates::Variation;
use shape_pipeline::{BufferClusterLevel, BufferFlags, Direction, Feature, GlyphId, Script};
use shape_text_forms::{
    direction_from_string, feature_from_string, script_from_string, variation_from_string,
};
use std::alloc::{AllocError, Global};

/// Options that ask something of a run.
const RUN_FLAGS: [(&str, BufferFlags); 6] = [
    ("bot", BufferFlags::BEGINNING_OF_TEXT),
    ("eot", BufferFlags::END_OF_TEXT),
    (
        "preserve-default-ignorables",
        BufferFlags::PRESERVE_DEFAULT_IGNORABLES,
    ),
    (
        "remove-default-ignorables",
        BufferFlags::REMOVE_DEFAULT_IGNORABLES,
    ),
    ("unsafe-to-concat", BufferFlags::PRODUCE_UNSAFE_TO_CONCAT),
    (
        "safe-to-insert-tatweel",
        BufferFlags::PRODUCE_SAFE_TO_INSERT_TATWEEL,
    ),
];

/// The value of an option, none if it isn't there.
pub fn word(alloc: Global, matches: &ArgMatches, name: &str) -> Result<Option<String>, AllocError> {
    match matches.get_str(name) {
        Some(word) => Ok(Some(String::from_str(alloc, word)?)),
        None => Ok(None),
    }
}

/// The value of an option, another word if it isn't there.
pub fn word_or(
    alloc: Global,
    matches: &ArgMatches,
    name: &str,
    other: &str,
) -> Result<String, AllocError> {
    String::from_str(alloc, matches.get_str(name).unwrap_or(other))
}

/// The text that an option gives by numbers.
fn numbers(alloc: Global, name: &str, list: &str) -> Result<String, Failure> {
    match text_of_numbers(alloc, list)? {
        Some(text) => Ok(text),
        None => Err(Failure::value(
            alloc,
            name,
            list,
            "hexadecimal numbers of characters such as U+0041,1F600",
        )),
    }
}

/// The name of a second one of these that is there, none if at most one is.
fn second<'a>(matches: &ArgMatches, names: &[(&str, &'a str)]) -> Option<(&'a str, &'a str)> {
    let mut first: Option<&'a str> = None;
    for (name, shown) in names {
        if matches.contains_id(name) {
            match first {
                Some(first) => return Some((first, *shown)),
                None => first = Some(*shown),
            }
        }
    }
    None
}

/// Where texts come from; one place alone.
pub fn source(alloc: Global, matches: &ArgMatches) -> Result<Source, Failure> {
    let names = [
        ("word", "TEXT"),
        ("text", "--text"),
        ("unicodes", "--unicodes"),
        ("text-file", "--text-file"),
    ];
    if let Some((one, other)) = second(matches, &names) {
        return Err(Failure::both(alloc, one, other));
    }
    if let Some(list) = matches.get_str("unicodes") {
        return Ok(Source::Given(numbers(alloc, "unicodes", list)?));
    }
    if let Some(text) = matches.get_str("word").or(matches.get_str("text")) {
        return Ok(Source::Given(String::from_str(alloc, text)?));
    }
    match matches.get_str("text-file") {
        Some(name) if name != "-" => Ok(Source::File(String::from_str(alloc, name)?)),
        _ => Ok(Source::Input),
    }
}

/// What stands before or after each text, by one of these two options; empty if neither is there.
pub fn context(
    alloc: Global,
    matches: &ArgMatches,
    text: &str,
    list: &str,
) -> Result<String, Failure> {
    let name = list.trim_start_matches('-');
    match (
        matches.get_str(text.trim_start_matches('-')),
        matches.get_str(name),
    ) {
        (Some(_), Some(_)) => Err(Failure::both(alloc, text, list)),
        (None, Some(value)) => numbers(alloc, name, value),
        (Some(value), None) => Ok(String::from_str(alloc, value)?),
        (None, None) => Ok(String::new(alloc)),
    }
}

/// A list without the quotes around it, if it stands in quotes of one kind.
fn unquoted(list: &str) -> &str {
    for quote in ['"', '\''] {
        let inner = list
            .strip_prefix(quote)
            .and_then(|rest| rest.strip_suffix(quote));
        if let Some(inner) = inner {
            return inner;
        }
    }
    list
}

/// The features of a list, with commas or spaces between them; nothing stands between two.
pub fn features(alloc: Global, matches: &ArgMatches) -> Result<Vec<Feature>, Failure> {
    let mut features = Vec::new(alloc);
    let list = unquoted(matches.get_str("features").unwrap_or(""));
    for text in list.split([',', ' ']) {
        if text.is_empty() {
            continue;
        }
        match feature_from_string(text) {
            Some(feature) => {
                if features.push(feature).is_err() {
                    return Err(Failure::Memory);
                }
            }
            None => return Err(Failure::value(
                alloc,
                "features",
                text,
                "features such as kern=0,-liga,aalt[3:5]=2",
            )),
        }
    }
    Ok(features)
}

/// The values for axes of a list, with commas or spaces between them; nothing stands between two.
pub fn wishes(alloc: Global, matches: &ArgMatches) -> Result<Vec<Variation>, Failure> {
    let mut wishes = Vec::new(alloc);
    let list = unquoted(matches.get_str("variations").unwrap_or(""));
    for text in list.split([',', ' ']) {
        if text.is_empty() {
            continue;
        }
        match variation_from_string(text) {
            Some(wish) => {
                if wishes.push(wish).is_err() {
                    return Err(Failure::Memory);
                }
            }
            None => return Err(Failure::value(
                alloc,
                "variations",
                text,
                "values for axes such as wght=700,wdth=80",
            )),
        }
    }
    Ok(wishes)
}

/// The number of the named instance that is asked for. A font has fewer than 65,535.
pub fn instance(matches: &ArgMatches) -> Option<u16> {
    let number = matches.get_one::<u32>("named-instance")?;
    Some(number.min(65535) as u16)
}

/// The direction, Invalid if it is to be guessed.
pub fn direction(alloc: Global, matches: &ArgMatches) -> Result<Direction, Failure> {
    let Some(value) = matches.get_str("direction") else {
        return Ok(Direction::Invalid);
    };
    let direction = direction_from_string(value);
    if direction == Direction::Invalid {
        return Err(Failure::value(alloc, "direction", value, "ltr, rtl, ttb or btt"));
    }
    Ok(direction)
}

/// The script, none if it is to be guessed.
pub fn script(alloc: Global, matches: &ArgMatches) -> Result<Option<Script>, Failure> {
    let Some(value) = matches.get_str("script") else {
        return Ok(None);
    };
    match script_from_string(value) {
        Some(script) => Ok(Some(script)),
        None => Err(Failure::value(alloc, "script", value, "a tag of ISO 15924 such as Latn")),
    }
}

/// Whether the first shaper of the list is `fallback` and not `ot`: either serves each text, so
/// that no other one is tried.
pub fn fallback(alloc: Global, matches: &ArgMatches) -> Result<bool, Failure> {
    let list = matches.get_str("shapers").unwrap_or("ot");
    if !list
        .split(',')
        .all(|name| name == "ot" || name == "fallback")
    {
        return Err(Failure::value(alloc, "shapers", list, "ot or fallback"));
    }
    Ok(list.starts_with("fallback"))
}

/// How many units wide and high the em square is to be, none for those of the font.
pub fn size(alloc: Global, matches: &ArgMatches) -> Result<Option<Size>, Failure> {
    let Some(value) = matches.get_str("font-size") else {
        return Ok(None);
    };
    if value == "upem" {
        return Ok(None);
    }
    match size_from_string(value) {
        Some(size) => Ok(Some(size)),
        None => Err(Failure::value(
            alloc,
            "font-size",
            value,
            "one or two whole numbers, or upem",
        )),
    }
}

/// How many points the em square has, 0 if that is not known.
pub fn points(alloc: Global, matches: &ArgMatches) -> Result<f32, Failure> {
    let value = matches.get_str("font-ptem").unwrap_or("0");
    match fast_float::parse::<f32, &str>(value) {
        Ok(points) if points.is_finite() => Ok(points),
        _ => Err(Failure::value(alloc, "font-ptem", value, "a number of points")),
    }
}

/// How clusters are merged.
pub fn level(matches: &ArgMatches) -> BufferClusterLevel {
    match matches.get_one::<u32>("cluster-level") {
        Some(1) => BufferClusterLevel::MonotoneCharacters,
        Some(2) => BufferClusterLevel::Characters,
        _ => BufferClusterLevel::MonotoneGraphemes,
    }
}

/// The glyph with this number, none for 0.
pub fn glyph(matches: &ArgMatches, name: &str) -> Option<GlyphId> {
    match matches.get_one::<u32>(name) {
        Some(glyph) if glyph != 0 => Some(GlyphId(glyph)),
        _ => None,
    }
}

/// What is asked of a run.
pub fn run_flags(matches: &ArgMatches) -> u32 {
    let mut flags = 0;
    for (name, flag) in RUN_FLAGS.iter() {
        if matches.get_flag(name) {
            flags |= flag.0;
        }
    }
    flags
}
