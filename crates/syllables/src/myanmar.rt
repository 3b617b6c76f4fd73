//! The syllables of Myanmar.
ghost use Rattle.std.specs.Prelude.{◌≡◌};
ghost use Rattle.syllables.specs.Grammar.{first_syllable};
ghost use Rattle.syllables.specs.Machines.{IsMachineOf};
ghost use Rattle.syllables.specs.MyanmarGrammar.{myanmar_grammar};

mod table;

use crate::laws::tables_find_syllables;
use crate::scanner;
use crate::scanner::{Machine, Syllable};
use table::{COLUMNS, KINDS, ROWS};

/// A base with what belongs to it.
pub const CONSONANT: u8 = 0;

/// A tail without a base.
pub const BROKEN: u8 = 1;

/// A character alone, of which no syllable is made.
pub const OTHER: u8 = 2;

/// The table of the grammar.
pub fn myanmar_machine() -> Machine<'static>
    ensures machine { IsMachineOf result myanmar_grammar }
    ensures other { result.other ≡ 2 }
{
    Machine {
        columns: COLUMNS,
        rows: &ROWS,
        kinds: &KINDS,
        other: OTHER,
    }
}

/// The first syllable of a text, by the categories of its characters.
pub fn myanmar_syllable(categories: &[u8]) -> Syllable
    ensures { result ≡ first_syllable myanmar_grammar 2 categories.now }
{
    tables_find_syllables();
    scanner::first_syllable(myanmar_machine(), categories)
}
