//! The command line: the options with their values and their help, as `clap` reads them.
use clap::builder::ValueParser;
use clap::{Arg, ArgAction, Command};
use std::alloc::{AllocError, Global};

/// What stands after the options in the help.
const AFTER_HELP: &str = "\
A cluster is shown by the first font that has it, and by the first of all if none has. A line ends where the rules of
UAX 14 let it, and inside a word that is wider than the line.

A line is written with the bytes of its text, its direction, its width without its last spaces, and how far it
reaches above and below its baseline; then its runs from left to right, each with the bytes of its text, the
number of its font, its level, where it begins, and its glyphs as hb-shape writes them. A picture has at most
16 megabytes: glyphs that would follow are left out.

Of a collection the first font is taken.

Status 1: a file can't be read or written, or is no font, or memory ran out. Status 2: the arguments.
Status 3: the text was refused.";

/// What an option takes.
#[derive(Clone, Copy)]
enum Takes {
    /// Nothing.
    Nothing,
    /// Any word, also one that begins with a dash, under this name.
    Word(&'static str),
    /// A number from 0 to this one.
    Number(u64),
}

/// An option: its name, another name that `fontshape` has for it or none, what it takes, and its
/// help.
#[derive(Clone, Copy)]
struct Choice(&'static str, Option<&'static str>, Takes, &'static str);

static CHOICES: [Choice; 11] = [
    Choice("text", None, Takes::Word("TEXT"), "The text"),
    Choice(
        "text-file",
        None,
        Takes::Word("FILE"),
        "A file to read the text from, - for standard input (standard input)",
    ),
    Choice(
        "width",
        None,
        Takes::Number(0xFFFF_FFFF),
        "How wide lines may be (lines end where they must alone)",
    ),
    Choice(
        "dir",
        Some("direction"),
        Takes::Word("DIRECTION"),
        "ltr, rtl, or auto for that of the first strong character (auto)",
    ),
    Choice(
        "size",
        Some("font-size"),
        Takes::Number(0x7FFF_FFFF),
        "Units of the em square of each font (those of the first font)",
    ),
    Choice(
        "language",
        None,
        Takes::Word("LANGUAGE"),
        "A name of BCP 47",
    ),
    Choice(
        "features",
        None,
        Takes::Word("LIST"),
        "Features such as kern=0,-liga,aalt[3:5]=2, for bytes of the text",
    ),
    Choice(
        "variations",
        None,
        Takes::Word("LIST"),
        "Values for axes of the fonts that have them, such as wght=700,wdth=80",
    ),
    Choice(
        "carets",
        None,
        Takes::Nothing,
        "Write where carets stand, too: the byte that follows, and how far from the left",
    ),
    Choice(
        "svg",
        None,
        Takes::Nothing,
        "Draw the lines, a bar for each run in the colour of its font",
    ),
    Choice(
        "output-file",
        None,
        Takes::Word("FILE"),
        "The file to write to (standard output)",
    ),
];

/// An option as `clap` reads it: a later use counts and not an earlier one.
fn argument<'a>(alloc: Global, choice: Choice) -> Result<Arg<'a>, AllocError> {
    let Choice(name, other, takes, help) = choice;
    let mut arg = Arg::new(alloc, name)
        .long(name)
        .help(help)
        .overrides_with(name)?;
    if let Some(other) = other {
        arg = arg.alias(other)?;
    }
    if name == "output-file" {
        arg = arg.short('o');
    }
    Ok(match takes {
        Takes::Nothing => arg.action(ArgAction::SetTrue),
        Takes::Word(value) => arg.value_name(value).allow_hyphen_values(true),
        Takes::Number(most) => arg
            .value_name("N")
            .value_parser(ValueParser::unsigned(0, most)),
    })
}

/// The command line of the program.
pub fn command<'a>(alloc: Global) -> Result<Command<'a>, AllocError> {
    let fonts = Arg::new(alloc, "fonts")
        .value_name("FONT")
        .num_args(1..)
        .required(true)
        .help("Font files (OpenType or TrueType), in the order in which they are tried");
    let version = Arg::new(alloc, "version")
        .long("version")
        .help("Print version")
        .action(ArgAction::Version);
    let mut command = Command::new(alloc, "fill_paragraph")
        .version("0.1.0")
        .about("Fills a paragraph with font files, and writes or draws its lines.")
        .after_help(AFTER_HELP)
        .disable_version_flag(true)
        .arg(fonts)?
        .arg(version)?;
    for choice in &CHOICES {
        command = command.arg(argument(alloc, *choice)?)?;
    }
    Ok(command)
}
