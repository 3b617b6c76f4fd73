//! What the arguments ask for.
use crate::failure::Failure;
use crate::typed::command_line;
use crate::{forms, values};
use clap::ArgMatches;
use font_sizes::Size;
use font_variations::coordinates::{Variation, Wanted};
use glyph_pictures::Look;
use shape_pipeline::{
    BufferClusterLevel, BufferFlags, Direction, Feature, GlyphId, Language, Script,
};
use shape_text_forms::{SerializeFlags, language_from_string};
use std::alloc::{AllocError, Global};

/// How lines are written.
#[derive(Clone, Copy, PartialEq, Eq)]
pub enum Format {
    /// As `hb-shape` writes them.
    Text,
    /// As lists of JSON.
    Json,
    /// As one picture.
    Svg,
    /// As one page.
    Html,
}

/// Where texts come from.
#[derive(Drop)]
pub enum Source {
    /// The arguments.
    Given(String),
    /// The file of this name.
    File(String),
    /// Standard input.
    Input,
}

/// What is written before the glyphs of a line.
#[derive(Clone, Copy)]
pub struct Shown {
    pub text: bool,
    pub unicode: bool,
    pub line_num: bool,
}

/// What the arguments ask for.
#[derive(Drop)]
pub struct Options {
    font: String,
    source: Source,
    single_par: bool,
    before: String,
    after: String,
    features: Vec<Feature>,
    direction: Direction,
    script: Option<Script>,
    language: Option<String>,
    size: Option<Size>,
    points: f32,
    level: BufferClusterLevel,
    mode: Option<u32>,
    fallback: bool,
    face_index: u32,
    wishes: Vec<Variation>,
    instance: Option<u16>,
    utf8_clusters: bool,
    layout: bool,
    invisible: Option<GlyphId>,
    not_found_selector: Option<GlyphId>,
    flags: u32,
    form: u32,
    format: Format,
    look: Look,
    shown: Shown,
    axes: bool,
    traced: bool,
    output: Option<String>,
    typed: String,
}

impl Options {
    /// What these words ask for. Refuses the first value that isn't as it should be, and two
    /// options that exclude each other.
    pub fn new(alloc: Global, matches: &ArgMatches, words: &[String]) -> Result<Options, Failure> {
        Ok(Options {
            font: values::word_or(alloc, matches, "font", "")?,
            source: values::source(alloc, matches)?,
            single_par: matches.get_flag("single-par"),
            before: values::context(alloc, matches, "--text-before", "--unicodes-before")?,
            after: values::context(alloc, matches, "--text-after", "--unicodes-after")?,
            features: values::features(alloc, matches)?,
            direction: values::direction(alloc, matches)?,
            script: values::script(alloc, matches)?,
            language: values::word(alloc, matches, "language")?,
            size: values::size(alloc, matches)?,
            points: values::points(alloc, matches)?,
            level: values::level(matches),
            mode: matches.get_one::<u32>("mode"),
            fallback: values::fallback(alloc, matches)?,
            face_index: matches.get_one::<u32>("face-index").unwrap_or(0),
            wishes: values::wishes(alloc, matches)?,
            instance: values::instance(matches),
            utf8_clusters: matches.get_flag("utf8-clusters"),
            layout: !matches.get_flag("no-layout"),
            invisible: values::glyph(matches, "invisible-glyph"),
            not_found_selector: values::glyph(matches, "not-found-variation-selector-glyph"),
            flags: values::run_flags(matches),
            form: forms::form_flags(matches),
            format: forms::format(alloc, matches)?,
            look: forms::look(alloc, matches)?,
            shown: forms::shown(matches),
            axes: forms::axes(alloc, matches)?,
            traced: matches.get_flag("trace"),
            output: forms::output(alloc, matches)?,
            typed: command_line(alloc, words)?,
        })
    }

    /// The name of the font file.
    pub fn font(&self) -> &str {
        self.font.as_str()
    }

    /// Where texts come from.
    pub fn source(&self) -> &Source {
        &self.source
    }

    /// Whether the input is one text, and not one a line.
    pub fn single_par(&self) -> bool {
        self.single_par
    }

    /// What stands before each text.
    pub fn before(&self) -> &str {
        self.before.as_str()
    }

    /// What stands after each text.
    pub fn after(&self) -> &str {
        self.after.as_str()
    }

    /// The features that are asked for.
    pub fn features(&self) -> &[Feature] {
        self.features.as_slice()
    }

    /// The direction, Invalid if it is to be guessed.
    pub fn direction(&self) -> Direction {
        self.direction
    }

    /// The script, none if it is to be guessed.
    pub fn script(&self) -> Option<Script> {
        self.script
    }

    /// The language, in HarfBuzz's spelling.
    pub fn language(&self, alloc: Global) -> Result<Option<Language>, AllocError> {
        match &self.language {
            Some(name) => language_from_string(alloc, name.as_str()),
            None => Ok(None),
        }
    }

    /// How many units wide and high the em square is to be; none for those of the font.
    pub fn size(&self) -> Option<Size> {
        self.size
    }

    /// How many points the em square has; 0 if that is not known.
    pub fn points(&self) -> f32 {
        self.points
    }

    /// How clusters are merged.
    pub fn level(&self) -> BufferClusterLevel {
        self.level
    }

    /// How texts are normalised, 0 to 4; none if the shaper decides.
    pub fn mode(&self) -> Option<u32> {
        self.mode
    }

    /// Whether each character is to be shaped by itself.
    pub fn fallback(&self) -> bool {
        self.fallback
    }

    /// The number of the font in a collection.
    pub fn face_index(&self) -> u32 {
        self.face_index
    }

    /// What is wanted of a variable font.
    pub fn wanted(&self) -> Wanted<'_> {
        Wanted {
            instance: self.instance,
            wishes: self.wishes.as_slice(),
        }
    }

    /// Whether clusters are offsets of bytes, and not numbers of characters.
    pub fn utf8_clusters(&self) -> bool {
        self.utf8_clusters
    }

    /// Whether the font's tables of lookups are used.
    pub fn layout(&self) -> bool {
        self.layout
    }

    /// The glyph of default ignorables, none for the space's.
    pub fn invisible_glyph(&self) -> Option<GlyphId> {
        self.invisible
    }

    /// The glyph of a variation selector that the font has no glyph for; none to leave it out.
    pub fn not_found_variation_selector_glyph(&self) -> Option<GlyphId> {
        self.not_found_selector
    }

    /// What is asked of a run.
    pub fn flags(&self) -> BufferFlags {
        BufferFlags(self.flags)
    }

    /// What is written of glyphs.
    pub fn form(&self) -> SerializeFlags {
        SerializeFlags(self.form)
    }

    /// How lines are written.
    pub fn format(&self) -> Format {
        self.format
    }

    /// Whether lines are drawn, and not written.
    pub fn draws(&self) -> bool {
        matches!(self.format, Format::Svg | Format::Html)
    }

    /// How a picture looks.
    pub fn look(&self) -> &Look {
        &self.look
    }

    /// What is written before the glyphs of a line.
    pub fn shown(&self) -> Shown {
        self.shown
    }

    /// Whether the font's axes are listed, and nothing is shaped.
    pub fn lists_axes(&self) -> bool {
        self.axes
    }

    /// Whether the list of each run is written after its steps.
    pub fn traced(&self) -> bool {
        self.traced
    }

    /// The command line, as a shell takes it.
    pub fn typed(&self) -> &str {
        self.typed.as_str()
    }

    /// The name of the file to write to, none for standard output.
    pub fn output(&self) -> Option<&str> {
        match &self.output {
            Some(name) => Some(name.as_str()),
            None => None,
        }
    }
}
