//! The definitions, computed on bytes that were read by hand.
ghost use Rattle.cff_tables.specs.Worked.Tables.{WorkedNumbers, WorkedIndex, WorkedOperands, WorkedDicts, WorkedSelection, WorkedFonts};
ghost use Rattle.cff_tables.specs.Worked.Names.{WorkedCharsets, WorkedStrings, WorkedCodes, WorkedNames};

/// Numbers, INDEX and DICT data, the choice of a Font DICT, and whole fonts.
pub fn tables_meet_worked_cases()
    ensures numbers { WorkedNumbers }
    ensures index { WorkedIndex }
    ensures operands { WorkedOperands }
    ensures dicts { WorkedDicts }
    ensures selection { WorkedSelection }
    ensures fonts { WorkedFonts }
{}

/// Charsets, strings, codes of Standard Encoding, and names.
pub fn names_meet_worked_cases()
    ensures charsets { WorkedCharsets }
    ensures strings { WorkedStrings }
    ensures codes { WorkedCodes }
    ensures names { WorkedNames }
{}
