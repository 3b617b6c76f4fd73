//! The rules W1 to W7, over the classes of an isolating run sequence.
ghost use Rattle.std.specs.Prelude.{◌≡◌, ◌+◌, ◌<◌, ◌||◌, drop, length, true};
ghost use Rattle.std.specs.List.{list_any};
ghost use Rattle.bidi.specs.Classes;
ghost use Rattle.ucd_bidi.specs.declared.BidiClass.TheVariants.{EuropeanTerminator};
ghost use Rattle.bidi.specs.Weak;

use crate::classes::{is, is_isolate, is_number, is_strong};
use ucd_bidi::BidiClass;

/// The rules in their order. `sos` is the class before the sequence.
pub fn weak(classes: &mut [BidiClass], sos: BidiClass)
    ensures { classes.new ≡ Weak.weak sos classes.old }
{
    w1(classes, sos);
    if meets_number(classes, sos) {
        with_numbers(classes, sos);
    } else {
        w3(classes);
        w6(classes);
    }
}

/// Whether one of classes, or the one before them, is EN or AN. Where none is, W2, W4, W5 and W7
/// change nothing.
fn meets_number(classes: &[BidiClass], sos: BidiClass) -> bool
    ensures { result ≡ (Classes.is_number sos || list_any Classes.is_number classes.now) }
{
    is_number(sos) || has_number(classes)
}

/// Whether one of classes is EN or AN.
fn has_number(classes: &[BidiClass]) -> bool
    ensures { result ≡ list_any Classes.is_number classes.now }
{
    classes.iter().any(|class| is_number(*class))
}

/// The rules W2 to W7 in their order.
fn with_numbers(classes: &mut [BidiClass], sos: BidiClass)
    ensures { classes.new
        ≡ Weak.w7 sos (Weak.w6 (Weak.w5 sos (Weak.w4 sos (Weak.w3 (Weak.w2 sos classes.old))))) }
{
    w2(classes, sos);
    w3(classes);
    w4(classes, sos);
    w5(classes, sos);
    w6(classes);
    w7(classes, sos);
}

/// W1 for a character.
fn w1_class(before: BidiClass, class: BidiClass) -> BidiClass
    ensures { result ≡ Weak.w1_class before class }
{
    if !is(class, BidiClass::NonspacingMark) {
        return class;
    }
    if is_isolate(before) {
        BidiClass::OtherNeutral
    } else {
        before
    }
}

/// W1: marks take the class of the character before them.
fn w1(classes: &mut [BidiClass], sos: BidiClass)
    ensures { classes.new ≡ Weak.w1 sos classes.old }
{
    let mut before = sos;
    for i in 0..classes.len() {
        before = w1_class(before, classes[i]);
        classes[i] = before;
    }
}

/// The last strong class, after one more.
fn strong_then(strong: BidiClass, class: BidiClass) -> BidiClass
    ensures { result ≡ Weak.strong_then strong class }
{
    if is_strong(class) { class } else { strong }
}

/// W2 for a character.
fn w2_class(strong: BidiClass, class: BidiClass) -> BidiClass
    ensures { result ≡ Weak.w2_class strong class }
{
    if is(class, BidiClass::EuropeanNumber) && is(strong, BidiClass::ArabicLetter) {
        BidiClass::ArabicNumber
    } else {
        class
    }
}

/// W2: European numbers after an Arabic letter become Arabic ones.
fn w2(classes: &mut [BidiClass], sos: BidiClass)
    ensures { classes.new ≡ Weak.w2 sos classes.old }
{
    let mut strong = sos;
    for i in 0..classes.len() {
        let class = classes[i];
        classes[i] = w2_class(strong, class);
        strong = strong_then(strong, class);
    }
}

/// W3 for a character.
fn w3_class(class: BidiClass) -> BidiClass
    ensures { result ≡ Weak.w3_class class }
{
    if is(class, BidiClass::ArabicLetter) {
        BidiClass::RightToLeft
    } else {
        class
    }
}

/// W3: Arabic letters become right to left ones.
fn w3(classes: &mut [BidiClass])
    ensures { classes.new ≡ Weak.w3 classes.old }
{
    for i in 0..classes.len() {
        classes[i] = w3_class(classes[i]);
    }
}

/// W4 for a character.
fn w4_class(before: BidiClass, class: BidiClass, after: BidiClass) -> BidiClass
    ensures { result ≡ Weak.w4_class before class after }
{
    let common = is(class, BidiClass::CommonSeparator);
    if (is(class, BidiClass::EuropeanSeparator) || common)
        && is(before, BidiClass::EuropeanNumber)
        && is(after, BidiClass::EuropeanNumber)
    {
        return BidiClass::EuropeanNumber;
    }
    if common && is(before, BidiClass::ArabicNumber) && is(after, BidiClass::ArabicNumber) {
        return BidiClass::ArabicNumber;
    }
    class
}

/// The class at a place, or one that is no number's past the end.
pub(crate) fn class_at(classes: &[BidiClass], place: usize) -> BidiClass
    ensures { result ≡ Weak.next_class (drop place classes.now) }
{
    if place < classes.len() {
        classes[place]
    } else {
        BidiClass::OtherNeutral
    }
}

/// W4: single separators between numbers become numbers.
fn w4(classes: &mut [BidiClass], sos: BidiClass)
    ensures { classes.new ≡ Weak.w4 sos classes.old }
{
    let mut before = sos;
    for i in 0..classes.len() {
        let class = classes[i];
        let after = class_at(classes, i + 1);
        classes[i] = w4_class(before, class, after);
        before = class;
    }
}

/// Whether terminators, if any, and then a European number begin at a place.
fn leads_to_number(classes: &[BidiClass], start: usize) -> bool
    ensures { result ≡ Weak.leads_to_number (drop start classes.now) }
{
    for i in start..classes.len() {
        if !is(classes[i], BidiClass::EuropeanTerminator) {
            return is(classes[i], BidiClass::EuropeanNumber);
        }
    }
    false
}

/// W5 for a character, given whether terminators and then a number come after it.
fn w5_class(before: BidiClass, class: BidiClass, leads: bool) -> BidiClass
    ensures { result ≡ Weak.w5_class before class leads }
{
    if is(class, BidiClass::EuropeanTerminator)
        && (is(before, BidiClass::EuropeanNumber) || leads)
    {
        BidiClass::EuropeanNumber
    } else {
        class
    }
}

/// Whether a number comes after the terminators at a place. It is looked up at the first of them,
/// and known at the others; where there is none, nothing asks for it.
fn leads_at(classes: &[BidiClass], place: usize, inside: bool, leads: bool) -> bool
    requires within { place < length classes.now }
    requires known { inside ≡ true → leads ≡ Weak.leads_to_number (drop place classes.now) }
    ensures { Classes.is (Weak.next_class (drop place classes.now)) EuropeanTerminator ≡ true
        → result ≡ Weak.leads_to_number (drop (place + 1) classes.now) }
{
    if !is(classes[place], BidiClass::EuropeanTerminator) {
        return leads;
    }
    if inside {
        leads
    } else {
        leads_to_number(classes, place + 1)
    }
}

/// W5: terminators beside European numbers become such numbers.
fn w5(classes: &mut [BidiClass], sos: BidiClass)
    ensures { classes.new ≡ Weak.w5 sos classes.old }
{
    let mut before = sos;
    let mut inside = false;
    let mut leads = false;
    for i in 0..classes.len() {
        let class = classes[i];
        leads = leads_at(classes, i, inside, leads);
        inside = is(class, BidiClass::EuropeanTerminator);
        before = w5_class(before, class, leads);
        classes[i] = before;
    }
}

/// W6 for a character.
fn w6_class(class: BidiClass) -> BidiClass
    ensures { result ≡ Weak.w6_class class }
{
    if is(class, BidiClass::EuropeanSeparator)
        || is(class, BidiClass::EuropeanTerminator)
        || is(class, BidiClass::CommonSeparator)
    {
        BidiClass::OtherNeutral
    } else {
        class
    }
}

/// W6: separators and terminators that are left become neutral.
fn w6(classes: &mut [BidiClass])
    ensures { classes.new ≡ Weak.w6 classes.old }
{
    for i in 0..classes.len() {
        classes[i] = w6_class(classes[i]);
    }
}

/// W7 for a character.
fn w7_class(strong: BidiClass, class: BidiClass) -> BidiClass
    ensures { result ≡ Weak.w7_class strong class }
{
    if is(class, BidiClass::EuropeanNumber) && is(strong, BidiClass::LeftToRight) {
        BidiClass::LeftToRight
    } else {
        class
    }
}

/// W7: European numbers after a left to right letter become such letters.
fn w7(classes: &mut [BidiClass], sos: BidiClass)
    ensures { classes.new ≡ Weak.w7 sos classes.old }
{
    let mut strong = sos;
    for i in 0..classes.len() {
        let class = classes[i];
        classes[i] = w7_class(strong, class);
        strong = strong_then(strong, class);
    }
}
