//! A run as a text to be shaped.
ghost use Rattle.std.specs.Prelude.{◌≡◌, ◌≤◌, ◌<◌, ◌^◌, ◌++◌, length, replicate, true, IfOk, IfErr, OnOk, IsOkUnless, string_bytes};
ghost use Rattle.std.specs.Option.{option_map};
ghost use Rattle.std.specs.Str.{IsUtf8};
ghost use Rattle.shape_common.specs.Positions.{zero_position};
ghost use Rattle.shape_items.specs.Buffer.{new_buffer};
ghost use Rattle.shape_text_forms.specs.Names.{language_of_text};
ghost use Rattle.c_runs.specs.Languages;
ghost use Rattle.c_runs.specs.Numbers.{is_direction, is_level};
ghost use Rattle.c_runs.specs.Refusals.{IsNoPart, IsRefused, IsUnasked, IsUnnamed, IsValid};
ghost use Rattle.c_runs.specs.Texts.{Utf8, Utf16, asked_of, filled_up, part_of, text_of_run, units_of};
ghost use Rattle.utf16_text.specs.Utf16.{utf16_items, utf16_before, utf16_after};

use crate::plain::{self, luthgarn_run};
use crate::refusal::Refusal;
use crate::written::put_bytes;
use shape_buffer::buffer::{BufferFlags, Language, ShapeError, UnicodeBuffer};
use shape_text_forms::language_from_string;
use std::alloc::Global;
use utf16_text::{push_utf16, set_utf16_post_context, set_utf16_pre_context};

/// A text of a caller's, whose places count its units: bytes of UTF-8, or units of UTF-16, of which
/// any are a text.
#[derive(Clone, Copy)]
pub enum Text<'a> {
    Utf8(&'a [u8]),
    Utf16(&'a [u16]),
}

/// The part of a text in UTF-8 from one place up to another.
fn bytes_between(text: &[u8], from: u32, to: u32) -> Result<&str, Refusal>
    ensures ok { IfOk result (λ part. part.now ≡ part_of text.now from to) }
    ensures placed { IfOk result (λ _. (from ≤ to) × (to ≤ length text.now)) }
    ensures text { IfOk result (λ _. IsUtf8 (part_of text.now from to)) }
    ensures err { IfErr result (λ e. IsNoPart (Utf8 text.now) from to e) }
{
    let (from, to) = (from as usize, to as usize);
    if to < from || text.len() < to {
        return Err(Refusal::Run);
    }
    match str::from_utf8(&text[from..to]) {
        Ok(part) => Ok(part),
        Err(_) => Err(Refusal::Text),
    }
}

/// The part of a text in UTF-16 from one place up to another.
fn units_between(text: &[u16], from: u32, to: u32) -> Result<&[u16], Refusal>
    ensures ok { IfOk result (λ part. part.now ≡ part_of text.now from to) }
    ensures placed { IfOk result (λ _. (from ≤ to) × (to ≤ length text.now)) }
    ensures err { IfErr result (λ e. IsNoPart (Utf16 text.now) from to e) }
{
    let (from, to) = (from as usize, to as usize);
    if to < from || text.len() < to {
        return Err(Refusal::Run);
    }
    Ok(&text[from..to])
}

/// The language of a name, which zeros fill up.
fn language(alloc: Global, name: &[u8]) -> Result<Option<Language>, Refusal>
    ensures ok { IfOk result (λ found. option_map (λ l. string_bytes l.0) found
        ≡ language_of_text name.now) }
    ensures text { IfOk result (λ _. IsUtf8 name.now) }
    ensures err { IfErr result (λ e. IsUnnamed name.now e) }
{
    match str::from_utf8(name) {
        Ok(name) => Ok(language_from_string(alloc, name)?),
        Err(_) => Err(Refusal::Text),
    }
}

/// Whether a byte is a hyphen, or what stands for one.
fn is_hyphen(byte: u8) -> bool
    ensures { result ≡ Languages.is_hyphen byte }
{
    byte == b'-' || byte == b'_'
}

/// The last place up to this one where a hyphen stands behind a subtag; 0 if there is none.
fn last_hyphen(name: &[u8], most: usize) -> usize
    requires { most < length name.now }
    ensures last { result ≡ Languages.last_hyphen most name.now }
    ensures within { result ≤ most }
{
    let mut last = 0;
    for place in 0..most {
        if is_hyphen(name[place + 1]) {
            last = place + 1;
        }
    }
    last
}

/// Where a name ends without a subtag of one letter or digit at this end.
fn without_single(name: &[u8], end: usize) -> usize
    requires { end < length name.now }
    ensures end { result ≡ Languages.without_single end name.now }
    ensures within { result ≤ end }
{
    if end > 1 && is_hyphen(name[end - 2]) {
        end - 2
    } else {
        end
    }
}

/// As much of a language's name as a run has room for.
fn fitting(name: &[u8]) -> &[u8]
    ensures fitting { result.now ≡ Languages.fitting 64 name.now }
    ensures within { length result.now ≤ 64 }
{
    if name.len() <= 64 {
        return name;
    }
    let end = without_single(name, last_hyphen(name, 64));
    &name[..end]
}

/// A name of a language with zeros behind it, as a run has it: as much of it as there is room for.
pub fn language_bytes(name: &[u8]) -> [u8; 64]
    ensures { result ≡ filled_up 64 (Languages.fitting 64 name.now) }
{
    let mut language = [0; 64];
    let name = fitting(name);
    put_bytes(name, &mut language);
    language
}

/// A buffer without text gets what a run asks for.
fn ask(alloc: Global, run: &luthgarn_run, buffer: &mut UnicodeBuffer) -> Result<(), Refusal>
    requires { buffer.old ≡ new_buffer }
    ensures ok { OnOk result (buffer.new ≡ asked_of run.now) }
    ensures direction { OnOk result (is_direction run.now.direction ≡ true) }
    ensures level { OnOk result (is_level run.now.level ≡ true) }
    ensures language { OnOk result (IsUtf8 run.now.language) }
    ensures err { IfErr result (λ e. IsUnasked run.now e) }
{
    let direction = plain::direction(run.direction)?;
    let level = plain::level(run.level)?;
    let language = language(alloc, &run.language)?;
    buffer.set_direction(direction);
    buffer.set_script(plain::script(run.script));
    buffer.set_language(language);
    buffer.set_flags(BufferFlags(run.flags));
    buffer.set_cluster_level(level);
    Ok(())
}

/// A buffer without text gets the run of a text in UTF-8.
fn fill_utf8(
    alloc: Global,
    text: &[u8],
    run: &luthgarn_run,
    buffer: &mut UnicodeBuffer,
) -> Result<(), Refusal>
    requires { buffer.old ≡ new_buffer }
    ensures ok { OnOk result (buffer.new ≡ text_of_run (Utf8 text.now) run.now) }
    ensures valid { OnOk result (IsValid (Utf8 text.now) run.now) }
    ensures err { IfErr result (λ e. IsRefused ⊥ (Utf8 text.now) run.now e) }
{
    let before = bytes_between(text, run.before, run.start)?;
    let own = bytes_between(text, run.start, run.end)?;
    let after = bytes_between(text, run.end, run.after)?;
    ask(alloc, run, buffer)?;
    buffer.push_str(own)?;
    buffer.set_pre_context(before);
    buffer.set_post_context(after);
    Ok(())
}

/// A buffer without text gets one in UTF-16, and what stands beside it. Refuses with `Memory`
/// alone.
fn add_units(
    alloc: Global,
    buffer: &mut UnicodeBuffer,
    before: &[u16],
    own: &[u16],
    after: &[u16],
) -> Result<(), ShapeError>
    requires { length own.now < 2 ^ 32 }
    ensures ok { OnOk result (buffer.new ≡ record buffer.old {
      items = buffer.old.items ++ utf16_items own.now;
      positions = buffer.old.positions ++ replicate (length (utf16_items own.now)) zero_position;
      pre_context = utf16_before before.now;
      post_context = utf16_after after.now;
    }) }
    ensures memory { IsOkUnless result ShapeError.Memory }
{
    push_utf16(alloc, buffer, own)?;
    set_utf16_pre_context(alloc, buffer, before)?;
    set_utf16_post_context(alloc, buffer, after)?;
    Ok(())
}

/// A buffer without text gets the run of a text in UTF-16.
fn fill_utf16(
    alloc: Global,
    text: &[u16],
    run: &luthgarn_run,
    buffer: &mut UnicodeBuffer,
) -> Result<(), Refusal>
    requires { buffer.old ≡ new_buffer }
    ensures ok { OnOk result (buffer.new ≡ text_of_run (Utf16 text.now) run.now) }
    ensures valid { OnOk result (IsValid (Utf16 text.now) run.now) }
    ensures err { IfErr result (λ e. IsRefused ⊥ (Utf16 text.now) run.now e) }
{
    let before = units_between(text, run.before, run.start)?;
    let own = units_between(text, run.start, run.end)?;
    let after = units_between(text, run.end, run.after)?;
    ask(alloc, run, buffer)?;
    add_units(alloc, buffer, before, own, after)?;
    Ok(())
}

/// A buffer without text gets the characters of a run, what stands beside them, and what the run
/// asks for. Refuses a run that isn't placed in the text, or whose units aren't text, and with
/// `Memory` if a growth was refused.
pub(crate) fn fill(
    alloc: Global,
    text: Text<'_>,
    run: &luthgarn_run,
    buffer: &mut UnicodeBuffer,
) -> Result<(), Refusal>
    requires { buffer.old ≡ new_buffer }
    ensures ok { OnOk result (buffer.new ≡ text_of_run (units_of text.entry) run.now) }
    ensures valid { OnOk result (IsValid (units_of text.entry) run.now) }
    ensures err { IfErr result (λ e. IsRefused ⊥ (units_of text.entry) run.now e) }
{
    match text {
        Text::Utf8(bytes) => fill_utf8(alloc, bytes, run, buffer),
        Text::Utf16(units) => fill_utf16(alloc, units, run, buffer),
    }
}
