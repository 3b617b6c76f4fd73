//! Groups of bidirectional classes.
ghost use Rattle.std.specs.Prelude.{◌≡◌};
ghost use Rattle.bidi.specs.Classes;
ghost use Rattle.bidi.specs.Explicit.{is_plain};
ghost use Rattle.bidi.specs.Left.{is_left};

use ucd_bidi::BidiClass;

/// Whether two classes are the same.
#[inline]
pub(crate) fn is(class: BidiClass, other: BidiClass) -> bool
    ensures { result ≡ Classes.is class other }
{
    class.number() == other.number()
}

/// Whether a class is L, R or AL.
pub(crate) fn is_strong(class: BidiClass) -> bool
    ensures { result ≡ Classes.is_strong class }
{
    is(class, BidiClass::LeftToRight)
        || is(class, BidiClass::RightToLeft)
        || is(class, BidiClass::ArabicLetter)
}

/// BD8: whether a class is one of isolate initiators.
pub(crate) fn is_initiator(class: BidiClass) -> bool
    ensures { result ≡ Classes.is_initiator class }
{
    is(class, BidiClass::LeftToRightIsolate)
        || is(class, BidiClass::RightToLeftIsolate)
        || is(class, BidiClass::FirstStrongIsolate)
}

/// Whether a class is one of isolate initiators, or PDI.
pub(crate) fn is_isolate(class: BidiClass) -> bool
    ensures { result ≡ Classes.is_isolate class }
{
    is_initiator(class) || is(class, BidiClass::PopDirectionalIsolate)
}

/// Whether a class is one of texts in which nothing is right to left: none of R, AL and AN, and
/// none of the characters that embed, override or isolate.
pub(crate) fn is_left(class: BidiClass) -> bool
    ensures { result ≡ is_left class }
{
    match class {
        BidiClass::LeftToRight
        | BidiClass::EuropeanNumber
        | BidiClass::EuropeanSeparator
        | BidiClass::EuropeanTerminator
        | BidiClass::CommonSeparator
        | BidiClass::NonspacingMark
        | BidiClass::BoundaryNeutral
        | BidiClass::ParagraphSeparator
        | BidiClass::SegmentSeparator
        | BidiClass::WhiteSpace
        | BidiClass::OtherNeutral => true,
        _ => false,
    }
}

/// Whether none of X2 to X7 acts on a class: it doesn't embed, override or isolate, nor end such.
pub(crate) fn is_plain(class: BidiClass) -> bool
    ensures { result ≡ is_plain class }
{
    match class {
        BidiClass::LeftToRightEmbedding
        | BidiClass::RightToLeftEmbedding
        | BidiClass::LeftToRightOverride
        | BidiClass::RightToLeftOverride
        | BidiClass::PopDirectionalFormat
        | BidiClass::LeftToRightIsolate
        | BidiClass::RightToLeftIsolate
        | BidiClass::FirstStrongIsolate
        | BidiClass::PopDirectionalIsolate => false,
        _ => true,
    }
}

/// Whether a class is EN or AN.
pub(crate) fn is_number(class: BidiClass) -> bool
    ensures { result ≡ Classes.is_number class }
{
    is(class, BidiClass::EuropeanNumber) || is(class, BidiClass::ArabicNumber)
}

/// X9: whether characters of a class are removed.
pub(crate) fn is_removed(class: BidiClass) -> bool
    ensures { result ≡ Classes.is_removed class }
{
    is(class, BidiClass::LeftToRightEmbedding)
        || is(class, BidiClass::RightToLeftEmbedding)
        || is(class, BidiClass::LeftToRightOverride)
        || is(class, BidiClass::RightToLeftOverride)
        || is(class, BidiClass::PopDirectionalFormat)
        || is(class, BidiClass::BoundaryNeutral)
}

/// Whether a class is NI: a neutral one, or one of isolate formatting characters.
pub(crate) fn is_neutral(class: BidiClass) -> bool
    ensures { result ≡ Classes.is_neutral class }
{
    is(class, BidiClass::OtherNeutral)
        || is(class, BidiClass::WhiteSpace)
        || is(class, BidiClass::SegmentSeparator)
        || is(class, BidiClass::ParagraphSeparator)
        || is_isolate(class)
}

/// The direction of a class among neutral ones: L, or R, as which numbers act too.
pub(crate) fn direction(class: BidiClass) -> BidiClass
    ensures { result ≡ Classes.direction class }
{
    if is(class, BidiClass::LeftToRight) {
        BidiClass::LeftToRight
    } else {
        BidiClass::RightToLeft
    }
}

/// Whether N0 takes a class for a direction: L, R, or a number.
pub(crate) fn is_directed(class: BidiClass) -> bool
    ensures { result ≡ Classes.is_directed class }
{
    is(class, BidiClass::LeftToRight)
        || is(class, BidiClass::RightToLeft)
        || is(class, BidiClass::EuropeanNumber)
        || is(class, BidiClass::ArabicNumber)
}

/// BD2: the direction of an embedding level.
pub(crate) fn of_level(level: u8) -> BidiClass
    ensures { result ≡ Classes.of_level level }
{
    if level % 2 == 0 {
        BidiClass::LeftToRight
    } else {
        BidiClass::RightToLeft
    }
}
