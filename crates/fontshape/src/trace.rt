//! What a run makes of a line's list, step by step, in the form of `hb-shape --trace`: before the
//! first lookup of GSUB, after each stage of lookups that changed what is written of the list, once
//! each glyph has its advance, and if they changed it after the tables `morx`, GPOS, `kerx`, `kern`
//! and `trak`.
//!
//! A trace takes at most [`MOST_BYTES`]: what would follow is left out, and the trace says so.
use crate::failure::Failure;
use crate::glyphs::Glyphs;
use crate::options::Options;
use crate::output::sink;
use crate::written::{Font, Style, write_glyphs, write_number};
use kern_table::KernMap;
use layout_map::lookups::LookupMap;
use layout_map::map::hb_ot_map_t;
use shape_pipeline::hb_buffer_t;
use std::alloc::{AllocError, Global};
use std::cell::RefCell;
use watched_runs::{Moment, watcher};

/// The most bytes of a line's trace, but for its last words.
const MOST_BYTES: usize = 1_000_000;

/// A text of at most so many bytes: the first part that would pass them is left out, and all that
/// follow it.
#[derive(Drop)]
struct Kept {
    text: String,
    full: bool,
}

impl Kept {
    /// An empty text.
    fn new(alloc: Global) -> Kept {
        Kept {
            text: String::new(alloc),
            full: false,
        }
    }

    /// Appends a part, or leaves it out.
    fn push(&mut self, part: &str) -> Result<(), AllocError> {
        let room = MOST_BYTES.saturating_sub(self.text.len());
        if self.full || room < part.len() {
            self.full = true;
            return Ok(());
        }
        self.text.push_str(part)
    }
}

impl sink for Kept {
    fn put(&mut self, _alloc: Global, part: &str) -> Result<(), Failure> {
        self.push(part)?;
        Ok(())
    }
}

/// What was noted of a run, the list that was noted last, and whether a growth was refused.
#[derive(Drop)]
struct Notes {
    kept: Kept,
    last: String,
    failed: bool,
}

/// Appends what is said of a moment.
fn push_moment(out: &mut String, moment: Moment) -> Result<(), AllocError> {
    match moment {
        Moment::BeforeStages => out.push_str("trace: start table GSUB"),
        Moment::Stage(i) => write!(out, "trace: end stage {i}"),
        Moment::Metamorphosed => out.push_str("trace: end table morx"),
        Moment::BeforePlacing => out.push_str("trace: start positioning"),
        Moment::Placed => out.push_str("trace: end table GPOS"),
        Moment::PlacedByKerx => out.push_str("trace: end table kerx"),
        Moment::Kerned => out.push_str("trace: end table kern"),
        Moment::Tracked => out.push_str("trace: end table trak"),
    }
}

/// Appends the numbers of lookups, if there are any.
fn push_lookups(out: &mut String, lookups: &[LookupMap]) -> Result<(), AllocError> {
    let mut before = " lookups ";
    for lookup in lookups {
        let index = lookup.index;
        write!(out, "{before}{index}")?;
        before = ",";
    }
    Ok(())
}

/// Whether glyphs have positions then.
fn has_positions(moment: Moment) -> bool {
    !matches!(
        moment,
        Moment::BeforeStages | Moment::Stage(_) | Moment::Metamorphosed
    )
}

/// Whether a list is noted only if it is another one than before.
fn follows_lookups(moment: Moment) -> bool {
    !matches!(moment, Moment::BeforeStages | Moment::BeforePlacing)
}

/// The trace of one line's run.
#[derive(Drop)]
pub struct Trace<'a> {
    alloc: Global,
    options: &'a Options,
    font: &'a Font<'a>,
    number: usize,
    notes: RefCell<Notes>,
}

impl<'a> Trace<'a> {
    /// A trace of the line of this number, without a list yet.
    pub fn new(alloc: Global, options: &'a Options, font: &'a Font<'a>, number: usize) -> Self {
        Trace {
            alloc,
            options,
            font,
            number,
            notes: RefCell::new(Notes {
                kept: Kept::new(alloc),
                last: String::new(alloc),
                failed: false,
            }),
        }
    }

    /// What was noted, a line for each list. Refuses with `Memory` if a growth was refused.
    pub fn into_text(self) -> Result<String, Failure> {
        let Trace { notes, .. } = self;
        let Notes { kept, failed, .. } = notes.into_inner();
        if failed {
            return Err(Failure::Memory);
        }
        let Kept { text, full } = kept;
        let mut text = text;
        if full {
            text.push_str("trace: the rest is left out\n")?;
        }
        Ok(text)
    }

    /// The list of a moment as it is written.
    fn list(&self, moment: Moment, buffer: &hb_buffer_t) -> Result<Kept, Failure> {
        let mut style = Style::new(self.options);
        if !has_positions(moment) {
            style = style.unplaced();
        }
        let mut list = Kept::new(self.alloc);
        write_glyphs(
            self.alloc,
            &mut list,
            self.font,
            style,
            Glyphs::of_run(buffer),
        )?;
        Ok(list)
    }

    /// The line of the trace that has this list.
    fn entry(&self, moment: Moment, lookups: &[LookupMap], list: &str) -> Result<String, Failure> {
        let mut number = Kept::new(self.alloc);
        write_number(self.alloc, &mut number, self.options, self.number)?;
        let mut entry = number.text;
        push_moment(&mut entry, moment)?;
        push_lookups(&mut entry, lookups)?;
        entry.push_str("\tbuffer: ")?;
        entry.push_str(list)?;
        entry.push('\n')?;
        Ok(entry)
    }

    /// Notes a list, unless it is as it was before the lookups.
    fn add(
        &self,
        notes: &mut Notes,
        moment: Moment,
        lookups: &[LookupMap],
        buffer: &hb_buffer_t,
    ) -> Result<(), Failure> {
        let list = self.list(moment, buffer)?;
        if list.full {
            notes.kept.full = true;
            return Ok(());
        }
        if follows_lookups(moment) && list.text.as_str() == notes.last.as_str() {
            return Ok(());
        }
        let entry = self.entry(moment, lookups, list.text.as_str())?;
        notes.kept.push(entry.as_str())?;
        notes.last = list.text;
        Ok(())
    }

    /// Notes a list that has a glyph, as far as there is room and memory.
    fn note(&self, moment: Moment, lookups: &[LookupMap], buffer: &hb_buffer_t) {
        if let Ok(mut guard) = self.notes.try_borrow_mut() {
            let notes = &mut *guard;
            if buffer.is_empty() || notes.kept.full || notes.failed {
                return;
            }
            if self.add(notes, moment, lookups, buffer).is_err() {
                notes.failed = true;
            }
        }
    }
}

impl<'a> watcher<hb_ot_map_t> for Trace<'a> {
    fn sees(&self, moment: Moment, buffer: &hb_buffer_t) {
        self.note(moment, &[], buffer);
    }

    fn sees_lookups(&self, moment: Moment, map: &hb_ot_map_t, buffer: &hb_buffer_t) {
        let lookups = match moment {
            Moment::Stage(i) => map.gsub_lookups(i),
            _ => map.gpos_lookups(),
        };
        self.note(moment, lookups, buffer);
    }
}

impl<'a> watcher<KernMap> for Trace<'a> {
    fn sees(&self, moment: Moment, buffer: &hb_buffer_t) {
        self.note(moment, &[], buffer);
    }

    fn sees_lookups(&self, moment: Moment, _map: &KernMap, buffer: &hb_buffer_t) {
        self.note(moment, &[], buffer);
    }
}

impl<'a> watcher<()> for Trace<'a> {
    fn sees(&self, moment: Moment, buffer: &hb_buffer_t) {
        self.note(moment, &[], buffer);
    }

    fn sees_lookups(&self, moment: Moment, _map: &(), buffer: &hb_buffer_t) {
        self.note(moment, &[], buffer);
    }
}
