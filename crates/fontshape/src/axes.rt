//! The axes of a variable font and its named instances, for people.
use crate::failure::Failure;
use crate::options::Options;
use crate::output::Output;
use font_variations::axes::{Axis, axis_count, instance_count, instance_value, nth_axis};
use shape_font::directory::table_or_empty;
use std::alloc::{AllocError, Global};
use std::io::Write;

/// The tag of the table of axes, `fvar`.
const FVAR: u32 = 0x6676_6172;

/// A tag as text, with `?` for what isn't a printable character of ASCII.
fn tag_text(alloc: Global, tag: u32) -> Result<String, AllocError> {
    let mut text = String::new(alloc);
    for byte in &tag.to_be_bytes() {
        let shown = if 0x20 <= *byte && *byte < 0x7F {
            char::from(*byte)
        } else {
            '?'
        };
        text.push(shown)?;
    }
    Ok(text)
}

/// An axis: its tag, and from where to where it goes.
fn axis_line(alloc: Global, axis: &Axis) -> Result<String, AllocError> {
    let tag = tag_text(alloc, axis.tag)?;
    let (least, default, greatest) = (axis.least, axis.default, axis.greatest);
    format!(in alloc; "{tag} from {least} to {greatest}, default {default}\n")
}

/// A named instance: its number, and its coordinate along each axis.
fn instance_line(alloc: Global, fvar: &[u8], instance: u16) -> Result<String, AllocError> {
    let mut line = format!(in alloc; "instance {instance}:")?;
    for i in 0..axis_count(fvar) {
        let tag = tag_text(alloc, nth_axis(fvar, i).tag)?;
        let value = instance_value(fvar, instance, i);
        let part = format!(in alloc; " {tag}={value}")?;
        line.push_str(part.as_str())?;
    }
    line.push('\n')?;
    Ok(line)
}

/// Writes a line for each axis, and then one for each named instance.
fn write_axes<W: Write + Drop>(
    alloc: Global,
    output: &mut Output<'_, W>,
    fvar: &[u8],
) -> Result<(), Failure> {
    if axis_count(fvar) == 0 {
        return output.write(alloc, b"no axes\n");
    }
    for i in 0..axis_count(fvar) {
        let line = axis_line(alloc, &nth_axis(fvar, i))?;
        output.write(alloc, line.as_bytes())?;
    }
    for instance in 0..instance_count(fvar) {
        let line = instance_line(alloc, fvar, instance)?;
        output.write(alloc, line.as_bytes())?;
    }
    Ok(())
}

/// Lists the axes of a font in place of shaping.
pub fn list_axes<W: Write + Drop>(
    alloc: Global,
    options: &Options,
    bytes: &[u8],
    output: Output<'_, W>,
) -> Result<(), Failure> {
    let mut output = output;
    let fvar = table_or_empty(bytes, options.face_index(), FVAR);
    let done = write_axes(alloc, &mut output, fvar);
    match output.flush(alloc) {
        Ok(()) => done,
        Err(failure) => Err(failure),
    }
}
