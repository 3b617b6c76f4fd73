//! What the arguments ask for.
use crate::failure::Failure;
use clap::ArgMatches;
use font_variations::coordinates::{Variation, Wanted};
use paragraph::{Direction, ParagraphOptions};
use shape_buffer::buffer::Feature;
use shape_text_forms::{feature_from_string, variation_from_string};
use std::alloc::{AllocError, Global};

/// What the arguments ask for.
#[derive(Drop)]
pub struct Options {
    fonts: Vec<String>,
    text: Option<String>,
    text_file: Option<String>,
    width: Option<u32>,
    direction: Option<Direction>,
    size: Option<u32>,
    language: Option<String>,
    features: Vec<Feature>,
    variations: Vec<Variation>,
    svg: bool,
    carets: bool,
    output: Option<String>,
}

/// The value of an option, none if it isn't there.
fn word(alloc: Global, matches: &ArgMatches, name: &str) -> Result<Option<String>, AllocError> {
    match matches.get_str(name) {
        Some(word) => Ok(Some(String::from_str(alloc, word)?)),
        None => Ok(None),
    }
}

/// The names of the font files.
fn fonts(alloc: Global, matches: &ArgMatches) -> Result<Vec<String>, AllocError> {
    let mut fonts = Vec::new(alloc);
    for name in matches.get_raw("fonts").unwrap_or(&[]) {
        fonts.push(String::from_str(alloc, name)?)?;
    }
    Ok(fonts)
}

/// The direction that is asked for, none if it is that of the text.
fn direction(alloc: Global, matches: &ArgMatches) -> Result<Option<Direction>, Failure> {
    match matches.get_str("dir") {
        None | Some("auto") => Ok(None),
        Some("ltr") => Ok(Some(Direction::LeftToRight)),
        Some("rtl") => Ok(Some(Direction::RightToLeft)),
        Some(other) => Err(Failure::value(alloc, "dir", other, "auto, ltr or rtl")),
    }
}

/// The features of a list, with commas or spaces between them.
fn features(alloc: Global, matches: &ArgMatches) -> Result<Vec<Feature>, Failure> {
    let mut features = Vec::new(alloc);
    for text in matches.get_str("features").unwrap_or("").split([',', ' ']) {
        if text.is_empty() {
            continue;
        }
        match feature_from_string(text) {
            Some(feature) => features.push(feature)?,
            None => return Err(Failure::value(
                alloc,
                "features",
                text,
                "features such as kern=0,-liga,aalt[3:5]=2",
            )),
        }
    }
    Ok(features)
}

/// The values for axes of a list, with commas or spaces between them.
fn variations(alloc: Global, matches: &ArgMatches) -> Result<Vec<Variation>, Failure> {
    let mut variations = Vec::new(alloc);
    let list = matches.get_str("variations").unwrap_or("");
    for text in list.split([',', ' ']) {
        if text.is_empty() {
            continue;
        }
        match variation_from_string(text) {
            Some(variation) => variations.push(variation)?,
            None => return Err(Failure::value(
                alloc,
                "variations",
                text,
                "values for axes such as wght=700,wdth=80",
            )),
        }
    }
    Ok(variations)
}

/// A word that may be there.
fn word_of(word: &Option<String>) -> Option<&str> {
    match word {
        Some(word) => Some(word.as_str()),
        None => None,
    }
}

impl Options {
    /// What the arguments ask for. Refuses the first value that isn't as it should be.
    pub fn new(alloc: Global, matches: &ArgMatches) -> Result<Options, Failure> {
        Ok(Options {
            fonts: fonts(alloc, matches)?,
            text: word(alloc, matches, "text")?,
            text_file: word(alloc, matches, "text-file")?,
            width: matches.get_one::<u32>("width"),
            direction: direction(alloc, matches)?,
            size: matches.get_one::<u32>("size"),
            language: word(alloc, matches, "language")?,
            features: features(alloc, matches)?,
            variations: variations(alloc, matches)?,
            svg: matches.get_flag("svg"),
            carets: matches.get_flag("carets"),
            output: word(alloc, matches, "output-file")?,
        })
    }

    /// The names of the font files.
    pub fn fonts(&self) -> &[String] {
        self.fonts.as_slice()
    }

    /// The text, none if it is to be read.
    pub fn text(&self) -> Option<&str> {
        word_of(&self.text)
    }

    /// The file to read it from, - for standard input.
    pub fn text_file(&self) -> &str {
        word_of(&self.text_file).unwrap_or("-")
    }

    /// How wide lines may be, none if they end where they must alone.
    pub fn width(&self) -> Option<u32> {
        self.width
    }

    /// How many units the em square of each font has, none for as many as that of the first.
    pub fn size(&self) -> Option<u32> {
        self.size
    }

    /// What is asked for along the axes of each font that has them.
    pub fn wanted(&self) -> Wanted<'_> {
        Wanted {
            instance: None,
            wishes: self.variations.as_slice(),
        }
    }

    /// Whether the lines are drawn.
    pub fn svg(&self) -> bool {
        self.svg
    }

    /// Whether the carets of each line are written.
    pub fn carets(&self) -> bool {
        self.carets
    }

    /// The file to write to, none for standard output.
    pub fn output(&self) -> Option<&str> {
        word_of(&self.output)
    }

    /// How the paragraph is laid out.
    pub fn paragraph(&self) -> ParagraphOptions<'_> {
        ParagraphOptions {
            width: self.width.unwrap_or(u32::MAX),
            direction: self.direction,
            size: self.size,
            language: word_of(&self.language),
            features: self.features.as_slice(),
        }
    }
}
