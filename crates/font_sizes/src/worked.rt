//! The definitions, computed by hand.
ghost use Rattle.font_sizes.specs.Worked.{WorkedFactors, WorkedNumbers, WorkedScales};

/// Factors of sizes, and numbers and boxes at them.
pub fn sizes_meet_worked_cases()
    ensures factors { WorkedFactors }
    ensures numbers { WorkedNumbers }
    ensures scales { WorkedScales }
{}
