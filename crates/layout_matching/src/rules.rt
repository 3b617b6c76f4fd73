//! Rules of context: what stands before, what is matched, what stands after, and the lookups that
//! are applied then.
ghost use Rattle.std.specs.Prelude.{◌≡◌, ◌<◌, ◌+◌, ◌^◌, nat_le, length};
ghost use Rattle.std.specs.Option.{IfSome};
ghost use Rattle.layout_matching.specs.Rules;
ghost use Rattle.layout_matching.specs.Rules.{row};

use layout_tables::classes::class;
use layout_tables::coverage::covers;
use layout_tables::offsets::offset16;
use shape_font::bytes::{records, u16_at};

/// No table is so long.
pub const FAR: usize = 274_877_906_944;

/// What a value of a row says of a glyph: which one it is, its class, a list that has it, or
/// nothing.
#[derive(Clone, Copy, PartialEq, Eq, Debug)]
pub enum Test {
    Glyph,
    Class,
    Coverage,
    Any,
}

/// So many values, from a place on. Classes and lists stand from `from` on.
#[derive(Clone, Copy, PartialEq, Eq, Debug)]
pub struct Row {
    pub test: Test,
    pub from: usize,
    pub count: u16,
    pub values: usize,
}

/// A rule: the row before, nearest first; that of the glyphs after the first one, whose count has
/// the first too; the row after; and where its lookups stand, so many.
#[derive(Clone, Copy, PartialEq, Eq, Debug)]
pub struct Rule {
    pub before: Row,
    pub input: Row,
    pub after: Row,
    pub lookups: usize,
    pub count: u16,
}

/// Whether a glyph is the one that a value names.
#[inline(always)]
fn is_named(table: &[u8], from: usize, value: u16, glyph: u32, test: Test) -> bool
    requires { from < 2 ^ 39 }
    ensures { result ≡ Rules.is_named table.now from value glyph test }
{
    match test {
        Test::Glyph => glyph == u32::from(value),
        Test::Class => class(table, from, glyph) == value,
        Test::Coverage => 0 < value && covers(table, from + usize::from(value), glyph),
        Test::Any => true,
    }
}

/// Whether a glyph is number `k` of a row.
#[inline(always)]
pub(crate) fn fits_row(table: &[u8], row: &Row, k: u32, glyph: u32) -> bool
    ensures { result ≡ Rules.fits_row table.now row.now k glyph }
{
    let value = u16_at(table, row.values.min(FAR) + 2 * k as usize);
    is_named(table, row.from.min(FAR), value, glyph, row.test)
}

/// Where the rules for glyph or class number `i` stand.
pub(crate) fn rules(table: &[u8], start: usize, counted: usize, i: u32) -> Option<usize>
    requires start { start < 2 ^ 35 }
    requires counted { counted < 16 }
    ensures value { result ≡ Rules.rules_at table.now start counted i }
    ensures near { IfSome result (λ r. r < 2 ^ 36) }
{
    let count = records(
        table,
        u32::from(u16_at(table, start + counted)),
        start + counted + 2,
        2,
    );
    if i < count {
        offset16(table, start, start + counted + 2 + 2 * i as usize)
    } else {
        None
    }
}

/// Where rule `r` stands.
#[inline(always)]
pub(crate) fn rule_at(table: &[u8], rules: usize, r: u32) -> Option<usize>
    requires rules { rules < 2 ^ 36 }
    requires r { r < 2 ^ 16 }
    ensures value { result ≡ Rules.rule_place table.now rules r }
    ensures near { IfSome result (λ r. r < 2 ^ 37) }
{
    offset16(table, rules, rules + 2 + 2 * r as usize)
}

/// How many bytes a rule has at least: how many glyphs it has, and how many lookups, or what is
/// before and what is matched.
const LEAST_RULE: usize = 4;

/// Whether the table has the first bytes of a rule. One that hasn't matches nothing, and needn't be
/// read.
#[inline(always)]
pub(crate) fn begins_inside(table: &[u8], place: usize) -> bool
    requires { place < 2 ^ 37 }
    ensures { result ≡ nat_le (place + 4) (length table.now) }
{
    place + LEAST_RULE <= table.len()
}

/// Whether the table has all bytes of a rule, of which the records of lookups come last.
pub(crate) fn is_inside(table: &[u8], rule: &Rule) -> bool
    ensures { result ≡ Rules.is_inside table.now rule.now }
{
    rule.lookups <= table.len() && 4 * usize::from(rule.count) <= table.len() - rule.lookups
}

/// So many values, from a place on.
#[inline(always)]
pub(crate) fn row_of(test: Test, from: usize, count: u16, values: usize) -> Row
    ensures { result ≡ row test from count values }
{
    Row {
        test,
        from,
        count,
        values,
    }
}

/// A rule without what stands before and after.
#[inline(always)]
pub(crate) fn plain(table: &[u8], test: Test, from: usize, at: usize, values: usize) -> Rule
    requires at { at < 2 ^ 38 }
    requires values { values < 2 ^ 38 }
    ensures { result ≡ Rules.plain_rule table.now test from at values }
{
    let count = u16_at(table, at);
    Rule {
        before: row_of(test, from, 0, values),
        input: row_of(test, from, count, values),
        after: row_of(test, from, 0, values),
        lookups: values + 2 * usize::from(count.saturating_sub(1)),
        count: u16_at(table, at + 2),
    }
}

/// What the values of a chained rule's rows say of a glyph, and where the classes or lists of each
/// row stand.
#[derive(Clone, Copy)]
pub struct RowTests {
    pub test: Test,
    pub before: usize,
    pub input: usize,
    pub after: usize,
}

/// A rule with what stands before and after. `whole` is 1 if the first glyph has a value too, else
/// 0. Inlined, as a rule has a hundred bytes, which each call would copy.
#[inline(always)]
pub(crate) fn chain(table: &[u8], rows: RowTests, whole: usize, at: usize) -> Rule
    requires at { at < 2 ^ 38 }
    requires whole { whole < 2 }
    ensures { result ≡ Rules.chained table.now rows.test rows.before rows.input rows.after whole at }
{
    let before = row_of(rows.test, rows.before, u16_at(table, at), at + 2);
    let middle = at + 2 + 2 * usize::from(before.count);
    let count = u16_at(table, middle);
    let input = row_of(rows.test, rows.input, count, middle + 2 + 2 * whole);
    let follows = middle + 2 + 2 * whole + 2 * usize::from(count.saturating_sub(1));
    let after = row_of(rows.test, rows.after, u16_at(table, follows), follows + 2);
    let last = follows + 2 + 2 * usize::from(after.count);
    Rule {
        before,
        input,
        after,
        lookups: last + 2,
        count: u16_at(table, last),
    }
}
