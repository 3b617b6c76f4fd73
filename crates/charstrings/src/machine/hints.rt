//! Numbers, hints and masks, of which the bytes are passed over.
ghost use Rattle.std.specs.Prelude.{◌≡◌, ◌<◌, ◌≤◌, ◌+◌};
ghost use Rattle.std.specs.Option.{option_map};
ghost use Rattle.charstrings.specs.Machine;

use super::State;
use crate::numbers::{number_size, number_value};
use crate::strokes::Event;
use cff_tables::bytes::byte_at;
use cff_tables::index::ObjectRange;

impl State {
    /// How many stems there are with those of the arguments.
    pub(super) fn stems_with(&self) -> u32
        ensures { result ≡ Machine.stems_with (Machine.run_of self.now) }
    {
        self.stems
            .saturating_add((self.args.as_slice().len() / 2) as u32)
    }

    /// hstem, vstem, hstemhm, vstemhm
    pub(super) fn hint(&mut self) -> Option<Event>
        ensures { Machine.hinted (Machine.run_of self.old)
            ≡ option_map (Machine.stepped (Machine.run_of self.new)) result }
    {
        self.stems = self.stems_with();
        self.args.clear();
        Some(Event::Went)
    }

    /// How many bytes a mask takes.
    pub(super) fn mask_bytes(&self) -> u32
        ensures { result ≡ Machine.mask_of (Machine.run_of self.now) }
    {
        match self.mask_size {
            Some(size) => size,
            None => self.stems_with() / 8 + (self.stems_with() % 8).min(1),
        }
    }

    /// Passes over bytes that are there.
    pub(super) fn pass(&mut self, count: u32)
        requires { self.old.code.from + count ≤ self.old.code.to }
        ensures { Machine.run_of self.new ≡ Machine.run_passed (Machine.run_of self.old) count }
    {
        let (from, to) = (self.code.from, self.code.to);
        self.code = ObjectRange {
            from: from + count,
            to,
        };
    }

    /// hintmask, cntrmask
    pub(super) fn mask(&mut self) -> Option<Event>
        ensures { Machine.masked (Machine.run_of self.old)
            ≡ option_map (Machine.stepped (Machine.run_of self.new)) result }
    {
        let size = self.mask_bytes();
        self.mask_size = Some(size);
        if self.code.to.saturating_sub(self.code.from) < size {
            return Some(Event::Went);
        }
        if 0 < size {
            self.pass(size);
        }
        self.args.clear();
        Some(Event::Went)
    }

    /// Puts a number on the stack.
    pub(super) fn push(&mut self, value: i32) -> Option<Event>
        ensures { Machine.pushed value (Machine.run_of self.old)
            ≡ option_map (Machine.stepped (Machine.run_of self.new)) result }
    {
        if self.args.is_full() {
            return None;
        }
        self.args.push(value);
        Some(Event::Went)
    }

    /// Reads the number that comes next.
    pub(super) fn read_number(&mut self, table: &[u8]) -> Option<Event>
        requires { self.old.code.from < self.old.code.to }
        ensures { Machine.read_number table.now (Machine.run_of self.old)
            ≡ option_map (Machine.stepped (Machine.run_of self.new)) result }
    {
        let at = self.code.from as usize;
        let first = byte_at(table, at);
        let size = number_size(first) as u32;
        if size <= self.code.to - self.code.from {
            self.pass(size);
            return self.push(number_value(table, at));
        }
        if first != 255 {
            return None;
        }
        self.pass(1);
        Some(Event::Went)
    }

    /// An operator that is not known takes all arguments.
    pub(super) fn clear(&mut self) -> Option<Event>
        ensures { Machine.cleared (Machine.run_of self.old)
            ≡ option_map (Machine.stepped (Machine.run_of self.new)) result }
    {
        self.args.clear();
        Some(Event::Went)
    }
}
