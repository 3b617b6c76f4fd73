//! Script_Extensions: the scripts that characters of several are used with (UAX 24, section 2.9).
ghost use Rattle.std.specs.Prelude.{◌≡◌, ◌==◌, map};
ghost use Rattle.std.specs.List.{list_any};
ghost use Rattle.ucd_script.specs.Script.{script_number};
ghost use Rattle.ucd_script.specs.ScriptExtensions.{listed_scripts};
ghost use Rattle.ucd_table.specs.Groups.{group_at, HasGroup};
ghost use Rattle.text_items.specs.Extensions.{is_listed};
ghost use Rattle.text_items.specs.declared.extension_table.TheConstants.{OFFSETS, SCRIPTS};

use crate::extension_table::{OFFSETS, RUNS, SCRIPTS};
use ucd_script::Script;

/// The first character that has a list.
const FIRST: char = '\u{B7}';

/// The number of a character's list of scripts.
fn list_number(c: char) -> u32
    ensures has { HasGroup OFFSETS SCRIPTS result }
    ensures list { group_at OFFSETS SCRIPTS result ≡ map script_number (listed_scripts c) }
{
    if c < FIRST {
        return 0;
    }
    ucd_table::search(&RUNS, c as u32)
}

/// The list with a number.
fn list_at(number: u32) -> &'static [u8]
    requires { HasGroup OFFSETS SCRIPTS number }
    ensures { result.now ≡ group_at OFFSETS SCRIPTS number }
{
    let number = number as usize;
    &SCRIPTS[OFFSETS[number] as usize..OFFSETS[number + 1] as usize]
}

/// The numbers of the scripts that the database lists for a character; for most it lists none.
pub(crate) fn listed(c: char) -> &'static [u8]
    ensures { result.now ≡ map script_number (listed_scripts c) }
{
    list_at(list_number(c))
}

/// Whether a number is among others.
fn has_number(numbers: &[u8], number: u32) -> bool
    ensures { result ≡ list_any (λ n. n == number) numbers.now }
{
    numbers.iter().any(|n| *n as u32 == number)
}

/// Whether a script is among those of a character, given the numbers of these.
pub(crate) fn is_among(script: Script, c: char, listed: &[u8]) -> bool
    requires { listed.now ≡ map script_number (listed_scripts c) }
    ensures { result ≡ is_listed script c }
{
    has_number(listed, script.number())
}
