//! The syllables of the scripts of India.
ghost use Rattle.std.specs.Prelude.{◌≡◌};
ghost use Rattle.syllables.specs.Grammar.{first_syllable};
ghost use Rattle.syllables.specs.Machines.{IsMachineOf};
ghost use Rattle.syllables.specs.IndicGrammar.{indic_grammar};

mod table;

use crate::laws::tables_find_syllables;
use crate::scanner;
use crate::scanner::{Machine, Syllable};
use table::{COLUMNS, KINDS, ROWS};

/// A consonant with what belongs to it.
pub const CONSONANT: u8 = 0;

/// An independent vowel with what belongs to it.
pub const VOWEL: u8 = 1;

/// A placeholder or a dotted circle with what belongs to it.
pub const STANDALONE: u8 = 2;

/// A symbol with its modifiers.
pub const SYMBOL: u8 = 3;

/// A tail without a base.
pub const BROKEN: u8 = 4;

/// A character alone, of which no syllable is made.
pub const OTHER: u8 = 5;

/// The table of the grammar.
pub fn indic_machine() -> Machine<'static>
    ensures machine { IsMachineOf result indic_grammar }
    ensures other { result.other ≡ 5 }
{
    Machine {
        columns: COLUMNS,
        rows: &ROWS,
        kinds: &KINDS,
        other: OTHER,
    }
}

/// The first syllable of a text, by the categories of its characters.
pub fn indic_syllable(categories: &[u8]) -> Syllable
    ensures { result ≡ first_syllable indic_grammar 5 categories.now }
{
    tables_find_syllables();
    scanner::first_syllable(indic_machine(), categories)
}
