//! The definitions, computed on tables and buffers that were read by hand.
ghost use Rattle.kern_table.specs.Worked.Kern.{WorkedValues, WorkedClasses, WorkedNumbers};
ghost use Rattle.kern_table.specs.Worked.Kern.{WorkedLines, WorkedMaps};
ghost use Rattle.kern_table.specs.Worked.Apple.{WorkedApple};
ghost use Rattle.kern_table.specs.Worked.Charges.{WorkedCharges};
ghost use Rattle.kern_table.specs.Worked.Engine.{WorkedEngine};
ghost use Rattle.kern_table.specs.Worked.Sides.{WorkedSides};

/// Values of pairs, Apple's version, glyphs at their sides, lines that are kerned, what that costs,
/// what requests ask for, and what the engine returns.
pub fn kerning_meets_worked_cases()
    ensures values { WorkedValues }
    ensures classes { WorkedClasses }
    ensures numbers { WorkedNumbers }
    ensures apple { WorkedApple }
    ensures sides { WorkedSides }
    ensures lines { WorkedLines }
    ensures charges { WorkedCharges }
    ensures maps { WorkedMaps }
    ensures engine { WorkedEngine }
{}
