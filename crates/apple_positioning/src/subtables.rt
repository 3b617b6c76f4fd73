//! A run of one subtable of `kerx` or `kern` over a line.
ghost use Rattle.std.specs.Prelude.{◌≡◌, length};
ghost use Rattle.shape_buffer.specs.Outcome.{Made};
ghost use Rattle.shape_items.specs.Buffer.{limit_of};
ghost use Rattle.kern_table.specs.Tables.{reversed};
ghost use Rattle.apple_positioning.specs.Layouts.{header_for};
ghost use Rattle.apple_positioning.specs.Runs.{source_of};
ghost use Rattle.apple_positioning.specs.Subtables as subtable_rules;

use crate::attaching::Attaching;
use crate::chains::Header;
use crate::driver::drive;
use crate::layouts::{attaches, has_pairs};
use crate::pairs::kern_run;
use crate::runs::Kerning;
use crate::stacking::{Stack, Stacking};
use shape_buffer::buffer::{Direction, hb_buffer_t};

/// Whether a subtable is for lines of a kind.
pub(crate) fn is_for(header: Header, horizontal: bool) -> bool
    ensures { result ≡ subtable_rules.is_for header horizontal }
{
    if horizontal {
        !header.is_vertical
    } else {
        header.is_vertical
    }
}

/// Whether a list is reversed before a subtable runs over it, and after that.
fn is_reversed(header: Header, direction: Direction) -> bool
    ensures { result ≡ subtable_rules.is_reversed header direction }
{
    if direction.is_backward() {
        !header.is_backward
    } else {
        header.is_backward
    }
}

/// Runs a subtable of format 1 over a list. One that moves glyphs along the line does nothing if
/// kerning is off everywhere.
fn stack_run(kerning: &Kerning<'_>, header: Header, buffer: &mut hb_buffer_t)
    requires { header ≡ header_for kerning.now.subtable.layout kerning.now.subtable.bytes.now }
    ensures made { buffer.new ≡ subtable_rules.stacked (source_of kerning.now) buffer.old }
    ensures len { length buffer.new.items ≡ length buffer.old.items }
    ensures limit { limit_of buffer.new ≡ limit_of buffer.old }
{
    if kerning.mask == 0 && !header.is_cross_stream {
        return;
    }
    let machine = Stacking { kerning: *kerning };
    drive(kerning, &machine, Stack::new(), buffer);
}

/// Runs a subtable of format 4 over a list.
fn attach_run(kerning: &Kerning<'_>, buffer: &mut hb_buffer_t)
    ensures made { buffer.new ≡ subtable_rules.attached (source_of kerning.now) buffer.old }
    ensures len { length buffer.new.items ≡ length buffer.old.items }
    ensures limit { limit_of buffer.new ≡ limit_of buffer.old }
{
    let machine = Attaching { kerning: *kerning };
    drive(kerning, &machine, None, buffer);
}

/// Does what the format of a subtable does, over a list in the order of processing.
#[tactic(auto, unfolding(crate::specs::Subtables::acted))]
fn act(kerning: &Kerning<'_>, header: Header, buffer: &mut hb_buffer_t)
    requires { header ≡ header_for kerning.now.subtable.layout kerning.now.subtable.bytes.now }
    ensures made { buffer.new ≡ subtable_rules.acted (source_of kerning.now) buffer.old }
    ensures len { length buffer.new.items ≡ length buffer.old.items }
    ensures limit { limit_of buffer.new ≡ limit_of buffer.old }
{
    let layout = kerning.subtable.layout;
    if has_pairs(layout, header.format) {
        kern_run(kerning, buffer);
    } else if header.format == 1 {
        stack_run(kerning, header, buffer);
    } else if attaches(layout, header.format) {
        attach_run(kerning, buffer);
    }
}

/// Does it over a list the other way round.
fn act_reversed(kerning: &Kerning<'_>, header: Header, buffer: &mut hb_buffer_t)
    requires { header ≡ header_for kerning.now.subtable.layout kerning.now.subtable.bytes.now }
    ensures made { buffer.new ≡ reversed
        (subtable_rules.acted (source_of kerning.now) (reversed buffer.old)) }
    ensures len { length buffer.new.items ≡ length buffer.old.items }
    ensures limit { limit_of buffer.new ≡ limit_of buffer.old }
{
    buffer.reverse();
    act(kerning, header, buffer);
    buffer.reverse();
}

/// Runs a subtable over a line, if it is for lines of this kind. The glyphs are processed from the
/// left or the top of the line on, or the other way round if the subtable says so. Takes no memory,
/// and refuses nothing.
#[tactic(auto, unfolding(crate::specs::Subtables::acted_in_order))]
pub fn run_subtable(kerning: &Kerning<'_>, buffer: &mut hb_buffer_t)
    ensures { Made (subtable_rules.subtable_run (source_of kerning.now)) buffer.old buffer.new }
{
    let header = kerning.subtable.header();
    if !is_for(header, buffer.direction().is_horizontal()) {
        return;
    }
    if is_reversed(header, buffer.direction()) {
        act_reversed(kerning, header, buffer);
    } else {
        act(kerning, header, buffer);
    }
}
