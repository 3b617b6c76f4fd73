//! The rules LB4 to LB18: breaks that are mandatory, spaces, and what stands beside them.
ghost use Rattle.std.specs.Prelude.{◌≡◌};
ghost use Rattle.line_breaks.specs.Rules;

use super::Around;
use ucd_breaks::LineBreak;

/// LB4: BK !.
pub(super) fn lb4(around: &Around) -> bool
    ensures { result ≡ Rules.lb4 around.now }
{
    around.before.one.is(LineBreak::MandatoryBreak)
}

/// LB5: CR × LF.
pub(super) fn lb5_crlf(around: &Around) -> bool
    ensures { result ≡ Rules.lb5_crlf around.now }
{
    around.before.one.is(LineBreak::CarriageReturn) && around.after.is(LineBreak::LineFeed)
}

/// LB5: CR !, LF !, NL !.
pub(super) fn lb5(around: &Around) -> bool
    ensures { result ≡ Rules.lb5 around.now }
{
    around.before.one.is(LineBreak::CarriageReturn)
        || around.before.one.is(LineBreak::LineFeed)
        || around.before.one.is(LineBreak::NextLine)
}

/// LB6: × (BK | CR | LF | NL).
pub(super) fn lb6(around: &Around) -> bool
    ensures { result ≡ Rules.lb6 around.now }
{
    around.after.is(LineBreak::MandatoryBreak)
        || around.after.is(LineBreak::CarriageReturn)
        || around.after.is(LineBreak::LineFeed)
        || around.after.is(LineBreak::NextLine)
}

/// LB7: × SP, × ZW.
pub(super) fn lb7(around: &Around) -> bool
    ensures { result ≡ Rules.lb7 around.now }
{
    around.after.is(LineBreak::Space) || around.after.is(LineBreak::ZWSpace)
}

/// LB8: ZW SP* ÷.
pub(super) fn lb8(around: &Around) -> bool
    ensures { result ≡ Rules.lb8 around.now }
{
    around.before.base.is(LineBreak::ZWSpace)
}

/// LB8a: ZWJ ×.
pub(super) fn lb8a(around: &Around) -> bool
    ensures { result ≡ Rules.lb8a around.now }
{
    around.joined
}

/// LB11: × WJ, WJ ×.
pub(super) fn lb11(around: &Around) -> bool
    ensures { result ≡ Rules.lb11 around.now }
{
    around.after.is(LineBreak::WordJoiner) || around.before.one.is(LineBreak::WordJoiner)
}

/// LB12: GL ×.
pub(super) fn lb12(around: &Around) -> bool
    ensures { result ≡ Rules.lb12 around.now }
{
    around.before.one.is(LineBreak::Glue)
}

/// LB12a: [^SP BA HY HH] × GL.
pub(super) fn lb12a(around: &Around) -> bool
    ensures { result ≡ Rules.lb12a around.now }
{
    around.after.is(LineBreak::Glue)
        && !(around.before.one.is(LineBreak::Space)
            || around.before.one.is(LineBreak::BreakAfter)
            || around.before.one.is(LineBreak::Hyphen)
            || around.before.one.is(LineBreak::UnambiguousHyphen))
}

/// LB13: × CL, × CP, × EX, × SY.
pub(super) fn lb13(around: &Around) -> bool
    ensures { result ≡ Rules.lb13 around.now }
{
    around.after.is(LineBreak::ClosePunctuation)
        || around.after.is(LineBreak::CloseParenthesis)
        || around.after.is(LineBreak::Exclamation)
        || around.after.is(LineBreak::BreakSymbols)
}

/// LB14: OP SP* ×.
pub(super) fn lb14(around: &Around) -> bool
    ensures { result ≡ Rules.lb14 around.now }
{
    around.before.base.is(LineBreak::OpenPunctuation)
}

/// LB15a: (sot | BK | CR | LF | NL | OP | QU | GL | SP | ZW) [Pi & QU] SP* ×.
pub(super) fn lb15a(around: &Around) -> bool
    ensures { result ≡ Rules.lb15a around.now }
{
    around.before.base.is(LineBreak::Quotation)
        && around.before.base.opens
        && (around.before.base_two.is(LineBreak::MandatoryBreak)
            || around.before.base_two.is(LineBreak::CarriageReturn)
            || around.before.base_two.is(LineBreak::LineFeed)
            || around.before.base_two.is(LineBreak::NextLine)
            || around.before.base_two.is(LineBreak::OpenPunctuation)
            || around.before.base_two.is(LineBreak::Quotation)
            || around.before.base_two.is(LineBreak::Glue)
            || around.before.base_two.is(LineBreak::Space)
            || around.before.base_two.is(LineBreak::ZWSpace))
}

/// LB15b: × [Pf & QU] (SP | GL | WJ | CL | QU | CP | EX | IS | SY | BK | CR | LF | NL | ZW | eot).
pub(super) fn lb15b(around: &Around) -> bool
    ensures { result ≡ Rules.lb15b around.now }
{
    around.after.is(LineBreak::Quotation)
        && around.after.closes
        && (around.next.is(LineBreak::Space)
            || around.next.is(LineBreak::Glue)
            || around.next.is(LineBreak::WordJoiner)
            || around.next.is(LineBreak::ClosePunctuation)
            || around.next.is(LineBreak::Quotation)
            || around.next.is(LineBreak::CloseParenthesis)
            || around.next.is(LineBreak::Exclamation)
            || around.next.is(LineBreak::InfixNumeric)
            || around.next.is(LineBreak::BreakSymbols)
            || around.next.is(LineBreak::MandatoryBreak)
            || around.next.is(LineBreak::CarriageReturn)
            || around.next.is(LineBreak::LineFeed)
            || around.next.is(LineBreak::NextLine)
            || around.next.is(LineBreak::ZWSpace))
}

/// LB15c: SP ÷ IS NU.
pub(super) fn lb15c(around: &Around) -> bool
    ensures { result ≡ Rules.lb15c around.now }
{
    around.before.one.is(LineBreak::Space)
        && around.after.is(LineBreak::InfixNumeric)
        && around.next.is(LineBreak::Numeric)
}

/// LB15d: × IS.
pub(super) fn lb15d(around: &Around) -> bool
    ensures { result ≡ Rules.lb15d around.now }
{
    around.after.is(LineBreak::InfixNumeric)
}

/// LB16: (CL | CP) SP* × NS.
pub(super) fn lb16(around: &Around) -> bool
    ensures { result ≡ Rules.lb16 around.now }
{
    (around.before.base.is(LineBreak::ClosePunctuation)
        || around.before.base.is(LineBreak::CloseParenthesis))
        && around.after.is(LineBreak::Nonstarter)
}

/// LB17: B2 SP* × B2.
pub(super) fn lb17(around: &Around) -> bool
    ensures { result ≡ Rules.lb17 around.now }
{
    around.before.base.is(LineBreak::BreakBoth) && around.after.is(LineBreak::BreakBoth)
}

/// LB18: SP ÷.
pub(super) fn lb18(around: &Around) -> bool
    ensures { result ≡ Rules.lb18 around.now }
{
    around.before.one.is(LineBreak::Space)
}
