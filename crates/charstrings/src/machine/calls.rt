//! Subroutines, the end of a glyph, and the operators of `CFF2`.
ghost use Rattle.std.specs.Prelude.{◌≡◌, ◌≤ℤ◌, pos};
ghost use Rattle.std.specs.Option.{option_map};
ghost use Rattle.charstrings.specs.Machine;

use super::{Program, State};
use crate::strokes::{Accent, Event};
use cff_tables::index::{ObjectRange, object_range};

/// The whole part of a number.
fn whole(value: i64) -> i64
    ensures { result ≡ Machine.whole value }
{
    value / 65536
}

/// What is added to the number of a subroutine, by how many there are.
fn bias(count: u32) -> i64
    ensures value { result ≡ pos (Machine.bias count) }
    ensures few { result ≤ℤ pos 32768 }
{
    if count < 1240 {
        107
    } else if count < 33900 {
        1131
    } else {
        32768
    }
}

/// The number, if there are more than so many.
fn in_range(count: u32, number: i64) -> Option<u32>
    ensures { result ≡ Machine.in_range count number }
{
    if number < 0 {
        return None;
    }
    let size = number.unsigned_abs();
    if size < u64::from(count) {
        Some(size as u32)
    } else {
        None
    }
}

impl State {
    /// Goes on in a subroutine, which exists.
    pub(super) fn enter(&mut self, program: &Program<'_>, at: u32, number: u32) -> Option<Event>
        ensures { Machine.entered program.now.table.now program.now.layout at number (Machine.run_of self.old)
            ≡ option_map (Machine.stepped (Machine.run_of self.new)) result }
    {
        if self.callers.is_full() {
            return None;
        }
        let code = object_range(program.table, program.layout.wide, at, number);
        self.args.truncate(self.args.len().saturating_sub(1));
        self.callers.push(self.code);
        self.code = code.unwrap_or(ObjectRange { from: 0, to: 0 });
        Some(Event::Went)
    }

    /// The subroutine of the INDEX at `at` that is called; none if there is no such.
    pub(super) fn called(&self, program: &Program<'_>, at: u32) -> Option<u32>
        ensures { result
            ≡ Machine.called program.now.table.now program.now.layout at (Machine.run_of self.now) }
    {
        if self.args.is_empty() {
            return None;
        }
        let count = program.subroutine_count(at);
        in_range(count, whole(self.below_top(1)) + bias(count))
    }

    /// callsubr, callgsubr
    pub(super) fn call(&mut self, program: &Program<'_>, at: u32) -> Option<Event>
        ensures { Machine.calls program.now.table.now program.now.layout at (Machine.run_of self.old)
            ≡ option_map (Machine.stepped (Machine.run_of self.new)) result }
    {
        match self.called(program, at) {
            Some(number) => self.enter(program, at, number),
            None => None,
        }
    }

    /// return
    pub(super) fn leave(&mut self) -> Option<Event>
        ensures { Machine.returned (Machine.run_of self.old)
            ≡ option_map (Machine.stepped (Machine.run_of self.new)) result }
    {
        match self.callers.pop() {
            Some(code) => {
                self.code = code;
                Some(Event::Went)
            }
            None => None,
        }
    }

    /// endchar
    pub(super) fn end(&self, wide: bool) -> Event
        ensures { Machine.ended wide (Machine.run_of self.now)
            ≡ Machine.did (Machine.run_of self.now) result }
    {
        if wide || self.args.len() < 4 {
            return Event::Ended;
        }
        Event::Composed(Accent {
            dx: self.below_top(4),
            dy: self.below_top(3),
            base: whole(self.below_top(2)),
            accent: whole(self.below_top(1)),
        })
    }

    /// vsindex
    pub(super) fn vary(&mut self) -> Option<Event>
        ensures { Machine.varies (Machine.run_of self.old)
            ≡ option_map (Machine.stepped (Machine.run_of self.new)) result }
    {
        let index = whole(self.below_top(1));
        if self.args.is_empty() || index < 0 || self.varied {
            return None;
        }
        self.args.clear();
        self.variation = index.unsigned_abs().min(65535) as u32;
        self.varied = true;
        Some(Event::Went)
    }

    /// blend, at the default instance
    pub(super) fn blend(&mut self, program: &Program<'_>) -> Option<Event>
        ensures { Machine.blends program.now.table.now program.now.layout (Machine.run_of self.old)
            ≡ option_map (Machine.stepped (Machine.run_of self.new)) result }
    {
        let top = whole(self.below_top(1));
        if self.args.is_empty() || top < 0 {
            return None;
        }
        let left = self.args.len() - 1;
        let count = top.unsigned_abs() as usize;
        let deltas = usize::from(program.region_count(self.variation)) * count;
        if left < deltas + count {
            return None;
        }
        self.args.truncate(left - deltas);
        self.varied = true;
        Some(Event::Went)
    }
}
