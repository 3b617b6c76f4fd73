//! The rules LB19 to LB30b: between letters, numbers and signs.
ghost use Rattle.std.specs.Prelude.{◌≡◌};
ghost use Rattle.line_breaks.specs.Rules;

use super::Around;
use ucd_breaks::LineBreak;

/// LB19: × [QU - Pi], [QU - Pf] ×.
pub(super) fn lb19(around: &Around) -> bool
    ensures { result ≡ Rules.lb19 around.now }
{
    around.after.is(LineBreak::Quotation) && !around.after.opens
        || around.before.one.is(LineBreak::Quotation) && !around.before.one.closes
}

/// LB19a: [^EastAsian] × QU, × QU ([^EastAsian] | eot), QU × [^EastAsian], (sot | [^EastAsian]) QU
/// ×.
pub(super) fn lb19a(around: &Around) -> bool
    ensures { result ≡ Rules.lb19a around.now }
{
    around.after.is(LineBreak::Quotation) && (!around.before.one.wide || !around.next.wide)
        || around.before.one.is(LineBreak::Quotation)
            && (!around.after.wide || !around.before.two.wide)
}

/// LB20: ÷ CB, CB ÷.
pub(super) fn lb20(around: &Around) -> bool
    ensures { result ≡ Rules.lb20 around.now }
{
    around.after.is(LineBreak::ContingentBreak) || around.before.one.is(LineBreak::ContingentBreak)
}

/// LB20a: (sot | BK | CR | LF | NL | SP | ZW | CB | GL) (HY | HH) × (AL | HL).
pub(super) fn lb20a(around: &Around) -> bool
    ensures { result ≡ Rules.lb20a around.now }
{
    (around.before.one.is(LineBreak::Hyphen) || around.before.one.is(LineBreak::UnambiguousHyphen))
        && (around.after.is(LineBreak::Alphabetic) || around.after.is(LineBreak::HebrewLetter))
        && (around.before.two.is(LineBreak::MandatoryBreak)
            || around.before.two.is(LineBreak::CarriageReturn)
            || around.before.two.is(LineBreak::LineFeed)
            || around.before.two.is(LineBreak::NextLine)
            || around.before.two.is(LineBreak::Space)
            || around.before.two.is(LineBreak::ZWSpace)
            || around.before.two.is(LineBreak::ContingentBreak)
            || around.before.two.is(LineBreak::Glue))
}

/// LB21: × BA, × HH, × HY, × NS, BB ×.
pub(super) fn lb21(around: &Around) -> bool
    ensures { result ≡ Rules.lb21 around.now }
{
    around.after.is(LineBreak::BreakAfter)
        || around.after.is(LineBreak::UnambiguousHyphen)
        || around.after.is(LineBreak::Hyphen)
        || around.after.is(LineBreak::Nonstarter)
        || around.before.one.is(LineBreak::BreakBefore)
}

/// LB21a: HL (HY | HH) × [^HL].
pub(super) fn lb21a(around: &Around) -> bool
    ensures { result ≡ Rules.lb21a around.now }
{
    around.before.two.is(LineBreak::HebrewLetter)
        && (around.before.one.is(LineBreak::Hyphen)
            || around.before.one.is(LineBreak::UnambiguousHyphen))
        && !around.after.is(LineBreak::HebrewLetter)
}

/// LB21b: SY × HL.
pub(super) fn lb21b(around: &Around) -> bool
    ensures { result ≡ Rules.lb21b around.now }
{
    around.before.one.is(LineBreak::BreakSymbols) && around.after.is(LineBreak::HebrewLetter)
}

/// LB22: × IN.
pub(super) fn lb22(around: &Around) -> bool
    ensures { result ≡ Rules.lb22 around.now }
{
    around.after.is(LineBreak::Inseparable)
}

/// LB23: (AL | HL) × NU, NU × (AL | HL).
pub(super) fn lb23(around: &Around) -> bool
    ensures { result ≡ Rules.lb23 around.now }
{
    (around.before.one.is(LineBreak::Alphabetic) || around.before.one.is(LineBreak::HebrewLetter))
        && around.after.is(LineBreak::Numeric)
        || around.before.one.is(LineBreak::Numeric)
            && (around.after.is(LineBreak::Alphabetic) || around.after.is(LineBreak::HebrewLetter))
}

/// LB23a: PR × (ID | EB | EM), (ID | EB | EM) × PO.
pub(super) fn lb23a(around: &Around) -> bool
    ensures { result ≡ Rules.lb23a around.now }
{
    around.before.one.is(LineBreak::PrefixNumeric)
        && (around.after.is(LineBreak::Ideographic)
            || around.after.is(LineBreak::EBase)
            || around.after.is(LineBreak::EModifier))
        || (around.before.one.is(LineBreak::Ideographic)
            || around.before.one.is(LineBreak::EBase)
            || around.before.one.is(LineBreak::EModifier))
            && around.after.is(LineBreak::PostfixNumeric)
}

/// LB24: (PR | PO) × (AL | HL), (AL | HL) × (PR | PO).
pub(super) fn lb24(around: &Around) -> bool
    ensures { result ≡ Rules.lb24 around.now }
{
    (around.before.one.is(LineBreak::PrefixNumeric)
        || around.before.one.is(LineBreak::PostfixNumeric))
        && (around.after.is(LineBreak::Alphabetic) || around.after.is(LineBreak::HebrewLetter))
        || (around.before.one.is(LineBreak::Alphabetic)
            || around.before.one.is(LineBreak::HebrewLetter))
            && (around.after.is(LineBreak::PrefixNumeric)
                || around.after.is(LineBreak::PostfixNumeric))
}

/// LB25: NU (SY | IS)* (CL | CP)? × (PO | PR), NU (SY | IS)* × NU.
pub(super) fn lb25_after(around: &Around) -> bool
    ensures { result ≡ Rules.lb25_after around.now }
{
    (around.before.closed || around.before.number)
        && (around.after.is(LineBreak::PostfixNumeric) || around.after.is(LineBreak::PrefixNumeric))
        || around.before.number && around.after.is(LineBreak::Numeric)
}

/// LB25: (PO | PR) × OP NU, (PO | PR) × OP IS NU, (PO | PR | HY | IS) × NU.
pub(super) fn lb25_before(around: &Around) -> bool
    ensures { result ≡ Rules.lb25_before around.now }
{
    (around.before.one.is(LineBreak::PostfixNumeric)
        || around.before.one.is(LineBreak::PrefixNumeric)
        || around.before.one.is(LineBreak::Hyphen)
        || around.before.one.is(LineBreak::InfixNumeric))
        && around.after.is(LineBreak::Numeric)
        || (around.before.one.is(LineBreak::PostfixNumeric)
            || around.before.one.is(LineBreak::PrefixNumeric))
            && around.after.is(LineBreak::OpenPunctuation)
            && (around.next.is(LineBreak::Numeric)
                || around.next.is(LineBreak::InfixNumeric) && around.third.is(LineBreak::Numeric))
}

/// LB26: JL × (JL | JV | H2 | H3), (JV | H2) × (JV | JT), (JT | H3) × JT.
pub(super) fn lb26(around: &Around) -> bool
    ensures { result ≡ Rules.lb26 around.now }
{
    around.before.one.is(LineBreak::Jl)
        && (around.after.is(LineBreak::Jl)
            || around.after.is(LineBreak::Jv)
            || around.after.is(LineBreak::H2)
            || around.after.is(LineBreak::H3))
        || (around.before.one.is(LineBreak::Jv) || around.before.one.is(LineBreak::H2))
            && (around.after.is(LineBreak::Jv) || around.after.is(LineBreak::Jt))
        || (around.before.one.is(LineBreak::Jt) || around.before.one.is(LineBreak::H3))
            && around.after.is(LineBreak::Jt)
}

/// LB27: (JL | JV | JT | H2 | H3) × PO, PR × (JL | JV | JT | H2 | H3).
pub(super) fn lb27(around: &Around) -> bool
    ensures { result ≡ Rules.lb27 around.now }
{
    (around.before.one.is(LineBreak::Jl)
        || around.before.one.is(LineBreak::Jv)
        || around.before.one.is(LineBreak::Jt)
        || around.before.one.is(LineBreak::H2)
        || around.before.one.is(LineBreak::H3))
        && around.after.is(LineBreak::PostfixNumeric)
        || around.before.one.is(LineBreak::PrefixNumeric)
            && (around.after.is(LineBreak::Jl)
                || around.after.is(LineBreak::Jv)
                || around.after.is(LineBreak::Jt)
                || around.after.is(LineBreak::H2)
                || around.after.is(LineBreak::H3))
}

/// LB28: (AL | HL) × (AL | HL).
pub(super) fn lb28(around: &Around) -> bool
    ensures { result ≡ Rules.lb28 around.now }
{
    (around.before.one.is(LineBreak::Alphabetic) || around.before.one.is(LineBreak::HebrewLetter))
        && (around.after.is(LineBreak::Alphabetic) || around.after.is(LineBreak::HebrewLetter))
}

/// LB28a: AP × (AK | ◌ | AS), (AK | ◌ | AS) × (VF | VI).
pub(super) fn lb28a_first(around: &Around) -> bool
    ensures { result ≡ Rules.lb28a_first around.now }
{
    around.before.one.is(LineBreak::AksaraPrebase)
        && (around.after.is(LineBreak::Aksara)
            || around.after.circle
            || around.after.is(LineBreak::AksaraStart))
        || (around.before.one.is(LineBreak::Aksara)
            || around.before.one.circle
            || around.before.one.is(LineBreak::AksaraStart))
            && (around.after.is(LineBreak::ViramaFinal) || around.after.is(LineBreak::Virama))
}

/// LB28a: (AK | ◌ | AS) VI × (AK | ◌), (AK | ◌ | AS) × (AK | ◌ | AS) VF.
pub(super) fn lb28a_second(around: &Around) -> bool
    ensures { result ≡ Rules.lb28a_second around.now }
{
    (around.before.two.is(LineBreak::Aksara)
        || around.before.two.circle
        || around.before.two.is(LineBreak::AksaraStart))
        && around.before.one.is(LineBreak::Virama)
        && (around.after.is(LineBreak::Aksara) || around.after.circle)
        || (around.before.one.is(LineBreak::Aksara)
            || around.before.one.circle
            || around.before.one.is(LineBreak::AksaraStart))
            && (around.after.is(LineBreak::Aksara)
                || around.after.circle
                || around.after.is(LineBreak::AksaraStart))
            && around.next.is(LineBreak::ViramaFinal)
}

/// LB29: IS × (AL | HL).
pub(super) fn lb29(around: &Around) -> bool
    ensures { result ≡ Rules.lb29 around.now }
{
    around.before.one.is(LineBreak::InfixNumeric)
        && (around.after.is(LineBreak::Alphabetic) || around.after.is(LineBreak::HebrewLetter))
}

/// LB30: (AL | HL | NU) × [OP - EastAsian], [CP - EastAsian] × (AL | HL | NU).
pub(super) fn lb30(around: &Around) -> bool
    ensures { result ≡ Rules.lb30 around.now }
{
    (around.before.one.is(LineBreak::Alphabetic)
        || around.before.one.is(LineBreak::HebrewLetter)
        || around.before.one.is(LineBreak::Numeric))
        && around.after.is(LineBreak::OpenPunctuation)
        && !around.after.wide
        || around.before.one.is(LineBreak::CloseParenthesis)
            && !around.before.one.wide
            && (around.after.is(LineBreak::Alphabetic)
                || around.after.is(LineBreak::HebrewLetter)
                || around.after.is(LineBreak::Numeric))
}

/// LB30a: sot (RI RI)* RI × RI, [^RI] (RI RI)* RI × RI.
pub(super) fn lb30a(around: &Around) -> bool
    ensures { result ≡ Rules.lb30a around.now }
{
    around.before.odd && around.after.is(LineBreak::RegionalIndicator)
}

/// LB30b: EB × EM, [Extended_Pictographic & Cn] × EM.
pub(super) fn lb30b(around: &Around) -> bool
    ensures { result ≡ Rules.lb30b around.now }
{
    (around.before.one.is(LineBreak::EBase) || around.before.one.reserved)
        && around.after.is(LineBreak::EModifier)
}
