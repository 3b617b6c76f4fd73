//! The syllables of the Universal Shaping Engine.
ghost use Rattle.std.specs.Prelude.{◌≡◌};
ghost use Rattle.syllables.specs.Grammar.{first_syllable};
ghost use Rattle.syllables.specs.Machines.{IsMachineOf};
ghost use Rattle.syllables.specs.UniversalGrammar.{universal_grammar};

mod table;

use crate::laws::tables_find_syllables;
use crate::scanner;
use crate::scanner::{Machine, Syllable};
use table::{COLUMNS, KINDS, ROWS};

/// A cluster that an invisible stacker or a killer that repeats ends.
pub const VIRAMA_TERMINATED: u8 = 0;

/// A cluster that sakot ends.
pub const SAKOT_TERMINATED: u8 = 1;

/// A base with what belongs to it.
pub const STANDARD: u8 = 2;

/// Numbers that a joiner ends.
pub const NUMBER_JOINER_TERMINATED: u8 = 3;

/// Numbers with joiners between them.
pub const NUMERAL: u8 = 4;

/// A symbol with what belongs to it.
pub const SYMBOL: u8 = 5;

/// Hieroglyphs, with joiners between them.
pub const HIEROGLYPH: u8 = 6;

/// A tail without a base.
pub const BROKEN: u8 = 7;

/// A character alone, of which no cluster is made.
pub const NON_CLUSTER: u8 = 8;

/// The table of the grammar.
pub fn universal_machine() -> Machine<'static>
    ensures machine { IsMachineOf result universal_grammar }
    ensures other { result.other ≡ 8 }
{
    Machine {
        columns: COLUMNS,
        rows: &ROWS,
        kinds: &KINDS,
        other: NON_CLUSTER,
    }
}

/// The first syllable of a text, by the categories of its characters.
pub fn universal_syllable(categories: &[u8]) -> Syllable
    ensures { result ≡ first_syllable universal_grammar 8 categories.now }
{
    tables_find_syllables();
    scanner::first_syllable(universal_machine(), categories)
}
