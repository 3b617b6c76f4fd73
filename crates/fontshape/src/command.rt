//! The command line: the options with their values and their help, as `clap` reads them.
use clap::builder::ValueParser;
use clap::{Arg, ArgAction, Command};
use std::alloc::{AllocError, Global};

/// What stands after the options in the help.
const AFTER_HELP: &str = "\
A value stands after = or is the next word. After a bare -- no word is an option. The last of several
values of an option counts.

A feature is switched on by its tag, as smcp or smcp=1, and off by -smcp or smcp=0; aalt=2 takes the second
of several forms. It holds for the clusters in brackets alone: [3], [3:5] up to 5 and without it, [3:], [:5].

Status 1: a file can't be read or written, or is no font, or memory ran out. Status 2: the arguments.
Status 3: a text was refused.";

const INPUT: &str = "Input, one text a line";

const SHAPING: &str = "Shaping";

const OUTPUT: &str = "Output";

/// What an option takes.
#[derive(Clone, Copy)]
enum Takes {
    /// Nothing.
    Nothing,
    /// Any word, also one that begins with a dash, under this name.
    Word(&'static str),
    /// A number from 0 to this one.
    Number(u64),
    /// A word under this name, of a picture that is drawn.
    Look(&'static str),
}

/// An option: its name, a letter for it or a space, what it takes, and its help.
#[derive(Clone, Copy)]
struct Choice(&'static str, char, Takes, &'static str);

static INPUT_CHOICES: [Choice; 13] = [
    Choice(
        "face-index",
        'y',
        Takes::Number(0xFFFF_FFFF),
        "The font of a collection",
    ),
    Choice(
        "variations",
        ' ',
        Takes::Word("LIST"),
        "Values for axes of a variable font, such as wght=700,wdth=80",
    ),
    Choice(
        "named-instance",
        ' ',
        Takes::Number(0xFFFF_FFFF),
        "The number of a named instance of a variable font",
    ),
    Choice("text", ' ', Takes::Word("TEXT"), "The text"),
    Choice(
        "text-file",
        ' ',
        Takes::Word("FILE"),
        "A file to read texts from, - for standard input",
    ),
    Choice(
        "unicodes",
        'u',
        Takes::Word("LIST"),
        "The text by numbers such as U+0041,1F600",
    ),
    Choice(
        "single-par",
        ' ',
        Takes::Nothing,
        "All of the input is one text",
    ),
    Choice(
        "text-before",
        ' ',
        Takes::Word("TEXT"),
        "What stands before each text",
    ),
    Choice(
        "text-after",
        ' ',
        Takes::Word("TEXT"),
        "What stands after each text",
    ),
    Choice(
        "unicodes-before",
        ' ',
        Takes::Word("LIST"),
        "What stands before each text, by numbers",
    ),
    Choice(
        "unicodes-after",
        ' ',
        Takes::Word("LIST"),
        "What stands after each text, by numbers",
    ),
    Choice("bot", ' ', Takes::Nothing, "Each text begins a paragraph"),
    Choice("eot", ' ', Takes::Nothing, "Each text ends a paragraph"),
];

static SHAPING_CHOICES: [Choice; 17] = [
    Choice(
        "features",
        ' ',
        Takes::Word("LIST"),
        "Features such as kern=0,-liga,aalt[3:5]=2",
    ),
    Choice(
        "direction",
        ' ',
        Takes::Word("DIRECTION"),
        "ltr, rtl, ttb or btt (guessed)",
    ),
    Choice(
        "script",
        ' ',
        Takes::Word("SCRIPT"),
        "A tag of ISO 15924 (guessed)",
    ),
    Choice("language", ' ', Takes::Word("LANGUAGE"), "A name of BCP 47"),
    Choice(
        "shapers",
        ' ',
        Takes::Word("LIST"),
        "Shapers to try in order: ot, or fallback for each character by itself",
    ),
    Choice(
        "font-size",
        ' ',
        Takes::Word("SIZE"),
        "Units of the em square, or of its width and height (the font's)",
    ),
    Choice(
        "font-ptem",
        ' ',
        Takes::Word("POINTS"),
        "Points of the em square, for fonts that track by size (0, not known)",
    ),
    Choice(
        "cluster-level",
        ' ',
        Takes::Number(2),
        "0 merges graphemes, 1 characters, 2 nothing",
    ),
    Choice(
        "mode",
        ' ',
        Takes::Number(4),
        "How texts are normalised, 0 to 4 (the shaper's)",
    ),
    Choice(
        "utf8-clusters",
        ' ',
        Takes::Nothing,
        "Clusters are bytes and not characters",
    ),
    Choice(
        "invisible-glyph",
        ' ',
        Takes::Number(0xFFFF_FFFF),
        "The glyph of default ignorables (the space's)",
    ),
    Choice(
        "not-found-variation-selector-glyph",
        ' ',
        Takes::Number(0xFFFF_FFFF),
        "The glyph of a variation selector that the font has no glyph for",
    ),
    Choice(
        "preserve-default-ignorables",
        ' ',
        Takes::Nothing,
        "Default ignorables stay as they are",
    ),
    Choice(
        "remove-default-ignorables",
        ' ',
        Takes::Nothing,
        "Default ignorables are deleted",
    ),
    Choice(
        "unsafe-to-concat",
        ' ',
        Takes::Nothing,
        "Ask for this flag of glyphs",
    ),
    Choice(
        "safe-to-insert-tatweel",
        ' ',
        Takes::Nothing,
        "Ask for this flag of glyphs",
    ),
    Choice(
        "no-layout",
        ' ',
        Takes::Nothing,
        "Shape without the tables of lookups",
    ),
];

static OUTPUT_CHOICES: [Choice; 20] = [
    Choice(
        "output-file",
        'o',
        Takes::Word("FILE"),
        "The file to write to (standard output)",
    ),
    Choice(
        "output-format",
        'O',
        Takes::Word("FORMAT"),
        "text or json (by the output file's name, else text)",
    ),
    Choice(
        "list-axes",
        ' ',
        Takes::Nothing,
        "Write the font's axes and named instances, and shape nothing",
    ),
    Choice(
        "svg",
        ' ',
        Takes::Nothing,
        "Draw all lines, a bar for each cluster, a mark where one may be cut",
    ),
    Choice(
        "background",
        ' ',
        Takes::Look("COLOUR"),
        "The colour of the picture, as RRGGBB or RRGGBBAA (white)",
    ),
    Choice(
        "foreground",
        ' ',
        Takes::Look("COLOUR"),
        "The colour of its glyphs (black)",
    ),
    Choice(
        "margin",
        ' ',
        Takes::Look("N"),
        "Its margins in units of the font, one to four numbers (an eighth of the em square)",
    ),
    Choice(
        "html",
        ' ',
        Takes::Word("FILE"),
        "Draw all lines on a page that shows where each glyph comes from",
    ),
    Choice(
        "show-text",
        ' ',
        Takes::Nothing,
        "Write each text before its glyphs",
    ),
    Choice(
        "show-unicode",
        ' ',
        Takes::Nothing,
        "Write the characters before their glyphs",
    ),
    Choice(
        "show-line-num",
        ' ',
        Takes::Nothing,
        "Write the number of each line",
    ),
    Choice("verbose", 'v', Takes::Nothing, "All of the last three"),
    Choice(
        "trace",
        'V',
        Takes::Nothing,
        "Write to standard error what each step of a run makes of its list",
    ),
    Choice(
        "no-glyph-names",
        ' ',
        Takes::Nothing,
        "Write glyphs by their numbers",
    ),
    Choice(
        "no-positions",
        ' ',
        Takes::Nothing,
        "Write no offsets and advances",
    ),
    Choice(
        "no-advances",
        ' ',
        Takes::Nothing,
        "Write no advances, and offsets from the start of the line",
    ),
    Choice("no-clusters", ' ', Takes::Nothing, "Write no clusters"),
    Choice(
        "ned",
        ' ',
        Takes::Nothing,
        "Write neither clusters nor advances",
    ),
    Choice(
        "show-extents",
        ' ',
        Takes::Nothing,
        "Write the boxes of glyphs",
    ),
    Choice(
        "show-flags",
        ' ',
        Takes::Nothing,
        "Write the flags of glyphs",
    ),
];

/// An option as `clap` reads it: a later use counts and not an earlier one.
fn argument<'a>(alloc: Global, choice: Choice, heading: &'a str) -> Result<Arg<'a>, AllocError> {
    let Choice(name, letter, takes, help) = choice;
    let mut arg = Arg::new(alloc, name)
        .long(name)
        .help(help)
        .help_heading(heading)
        .overrides_with(name)?;
    if letter != ' ' {
        arg = arg.short(letter);
    }
    if name == "shapers" {
        arg = arg.alias("shaper")?;
    }
    Ok(match takes {
        Takes::Nothing => arg.action(ArgAction::SetTrue),
        Takes::Word(value) => arg.value_name(value).allow_hyphen_values(true),
        Takes::Look(value) => arg.value_name(value).requires_arg("svg")?,
        Takes::Number(most) => arg
            .value_name("N")
            .value_parser(ValueParser::unsigned(0, most)),
    })
}

/// The command with these options too.
fn with<'a>(
    alloc: Global,
    command: Command<'a>,
    choices: &[Choice],
    heading: &'a str,
) -> Result<Command<'a>, AllocError> {
    let mut command = command;
    for choice in choices {
        command = command.arg(argument(alloc, *choice, heading)?)?;
    }
    Ok(command)
}

/// The font, the text, and the option that prints the version.
fn with_words<'a>(alloc: Global, command: Command<'a>) -> Result<Command<'a>, AllocError> {
    let font = Arg::new(alloc, "font")
        .value_name("FONT")
        .required(true)
        .help("A font file (OpenType or TrueType), or a collection");
    let word = Arg::new(alloc, "word").value_name("TEXT").help(
        "The text to shape; without one, each line of standard input",
    );
    let version = Arg::new(alloc, "version")
        .long("version")
        .help("Print version")
        .action(ArgAction::Version);
    command.arg(font)?.arg(word)?.arg(version)
}

/// The command line of the program.
pub fn command<'a>(alloc: Global) -> Result<Command<'a>, AllocError> {
    let command = Command::new(alloc, "fontshape")
        .version("0.1.0")
        .about("Shapes texts with a font file, and writes or draws the glyphs.")
        .after_help(AFTER_HELP)
        .disable_version_flag(true);
    let command = with_words(alloc, command)?;
    let command = with(alloc, command, &INPUT_CHOICES, INPUT)?;
    let command = with(alloc, command, &SHAPING_CHOICES, SHAPING)?;
    with(alloc, command, &OUTPUT_CHOICES, OUTPUT)
}
