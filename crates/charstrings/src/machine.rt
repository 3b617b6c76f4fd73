//! The machine that runs charstrings: one operator, number or stroke a step (Adobe Technical Note
//! 5177; OpenType, "CFF2 CharString Format"). A step that is refused ends the run: HarfBuzz has no
//! outline then.
ghost use Rattle.std.specs.Prelude.{◌≡◌, ◌<◌};
ghost use Rattle.cff_tables.specs.Font.{glyph_local, region_count};
ghost use Rattle.std.specs.Option.{option_map};
ghost use Rattle.charstrings.specs.Machine;

use crate::numbers::begins_number;
use crate::pieces::{PathOperator, arg};
use crate::strokes::{Event, Place};
use arrayvec::ArrayVec;
use cff_tables::CffFont;
use cff_tables::bytes::byte_at;
use cff_tables::font::{Layout, region_count};
use cff_tables::index::{ObjectRange, object_count};

mod calls;
mod hints;
mod paths;

/// The most arguments on the stack, as many as HarfBuzz takes.
pub const MOST_ARGS: usize = 513;

/// How deep subroutines may call one another.
pub const MOST_CALLS: usize = 10;

/// The most operators and numbers of a charstring; HarfBuzz has no outline for one with more.
pub const MOST_STEPS: u32 = 199_999;

/// An operator that draws, and how far it has come.
#[derive(Clone, Copy, PartialEq, Debug)]
pub struct Drawing {
    operator: PathOperator,
    turned: bool,
    at: u16,
}

/// The machine between two steps: the bytes that are left of the charstring and of those that
/// called it, the arguments (the first one at the bottom of the stack), the place of the pen, and
/// hints.
#[derive(Drop)]
pub struct State {
    code: ObjectRange,
    callers: ArrayVec<ObjectRange, MOST_CALLS>,
    args: ArrayVec<i32, MOST_ARGS>,
    place: Place,
    stems: u32,
    mask_size: Option<u32>,
    drawing: Option<Drawing>,
    steps_left: u32,
    variation: u32,
    varied: bool,
}

/// What a charstring runs in: the table, where its parts stand, and where the local subroutines of
/// its glyph do.
#[derive(Clone, Copy)]
pub struct Program<'a> {
    table: &'a [u8],
    layout: Layout,
    local: u32,
}

/// The operator with this byte that draws, if one does.
fn path_operator(byte: u8) -> Option<PathOperator>
    ensures { result ≡ Machine.path_operator byte }
{
    match byte {
        5 => Some(PathOperator::Lines),
        6 => Some(PathOperator::AxisLines(true)),
        7 => Some(PathOperator::AxisLines(false)),
        8 => Some(PathOperator::Curves),
        24 => Some(PathOperator::CurvesThenLine),
        25 => Some(PathOperator::LinesThenCurve),
        26 => Some(PathOperator::AxisCurves(false)),
        27 => Some(PathOperator::AxisCurves(true)),
        30 => Some(PathOperator::TurningCurves(false)),
        31 => Some(PathOperator::TurningCurves(true)),
        _ => None,
    }
}

/// hstem, vstem, hstemhm, vstemhm
fn is_stem_hint(operator: u8) -> bool
    ensures { result ≡ Machine.is_stem_hint operator }
{
    operator == 1 || operator == 3 || operator == 18 || operator == 23
}

/// hintmask, cntrmask
fn is_mask(operator: u8) -> bool
    ensures { result ≡ Machine.is_mask operator }
{
    operator == 19 || operator == 20
}

/// callsubr, return, endchar, callgsubr
fn is_flow(operator: u8) -> bool
    ensures { result ≡ Machine.is_flow operator }
{
    operator == 10 || operator == 11 || operator == 14 || operator == 29
}

/// vsindex, blend
fn is_of_cff2(operator: u8) -> bool
    ensures { result ≡ Machine.is_of_cff2 operator }
{
    operator == 15 || operator == 16
}

impl State {
    /// The machine before it runs a charstring.
    pub fn begin(code: ObjectRange, variation: u32) -> State
        ensures { Machine.run_of result ≡ Machine.first_run code variation }
    {
        State {
            code,
            callers: ArrayVec::new(),
            args: ArrayVec::new(),
            place: Place { x: 0, y: 0 },
            stems: 0,
            mask_size: None,
            drawing: None,
            steps_left: MOST_STEPS,
            variation,
            varied: false,
        }
    }

    /// The argument so far below the top of the stack, which is 1; 0 if there is none.
    fn below_top(&self, k: usize) -> i64
        ensures { result ≡ Machine.below_top k (Machine.run_of self.now) }
    {
        arg(self.args.as_slice(), self.args.len().saturating_sub(k))
    }

    /// An operator whose first byte is 12, by the second.
    fn escaped(&mut self, second: u8) -> Option<Event>
        ensures { Machine.escaped second (Machine.run_of self.old)
            ≡ option_map (Machine.stepped (Machine.run_of self.new)) result }
    {
        match second {
            34 => self.begin_drawing(PathOperator::Hflex),
            35 => self.begin_drawing(PathOperator::Flex),
            36 => self.begin_drawing(PathOperator::Hflex1),
            37 => self.begin_drawing(PathOperator::Flex1),
            _ => self.clear(),
        }
    }

    /// An operator whose first byte is 12, which is passed.
    fn escape(&mut self, table: &[u8]) -> Option<Event>
        ensures { Machine.escapes table.now (Machine.run_of self.old)
            ≡ option_map (Machine.stepped (Machine.run_of self.new)) result }
    {
        if self.code.to <= self.code.from {
            return self.clear();
        }
        let second = byte_at(table, self.code.from as usize);
        self.pass(1);
        self.escaped(second)
    }

    /// Operators by which the charstring goes on elsewhere, or ends.
    fn flow(&mut self, program: &Program<'_>, operator: u8) -> Option<Event>
        ensures { Machine.flow program.now.table.now program.now.layout program.now.local operator (Machine.run_of self.old)
            ≡ option_map (Machine.stepped (Machine.run_of self.new)) result }
    {
        if operator == 10 {
            self.call(program, program.local)
        } else if operator == 29 {
            self.call(program, program.layout.global)
        } else if operator == 11 {
            self.leave()
        } else {
            Some(self.end(program.layout.wide))
        }
    }

    /// Operators that only a table `CFF2` has.
    fn wide_operator(&mut self, program: &Program<'_>, operator: u8) -> Option<Event>
        ensures { Machine.wide_operator program.now.table.now program.now.layout operator (Machine.run_of self.old)
            ≡ option_map (Machine.stepped (Machine.run_of self.new)) result }
    {
        if !program.layout.wide {
            self.clear()
        } else if operator == 15 {
            self.vary()
        } else {
            self.blend(program)
        }
    }

    /// Operators that don't draw.
    fn operate(&mut self, program: &Program<'_>, operator: u8) -> Option<Event>
        ensures { Machine.operated program.now.table.now program.now.layout program.now.local operator (Machine.run_of self.old)
            ≡ option_map (Machine.stepped (Machine.run_of self.new)) result }
    {
        if is_stem_hint(operator) {
            self.hint()
        } else if is_mask(operator) {
            self.mask()
        } else if operator == 21 {
            self.rmoveto()
        } else if operator == 22 {
            self.hmoveto()
        } else if operator == 4 {
            self.vmoveto()
        } else if is_flow(operator) {
            self.flow(program, operator)
        } else if is_of_cff2(operator) {
            self.wide_operator(program, operator)
        } else if operator == 12 {
            self.escape(program.table)
        } else {
            self.clear()
        }
    }

    /// Runs the operator that comes next.
    fn run_operator(&mut self, program: &Program<'_>) -> Option<Event>
        requires { self.old.code.from < self.old.code.to }
        ensures { Machine.operator_step program.now.table.now program.now.layout program.now.local (Machine.run_of self.old)
            ≡ option_map (Machine.stepped (Machine.run_of self.new)) result }
    {
        let operator = byte_at(program.table, self.code.from as usize);
        self.pass(1);
        match path_operator(operator) {
            Some(path) => self.begin_drawing(path),
            None => self.operate(program, operator),
        }
    }

    /// The bytes of a charstring end.
    fn end_code(&mut self, wide: bool) -> Option<Event>
        ensures { Machine.at_end wide (Machine.run_of self.old)
            ≡ option_map (Machine.stepped (Machine.run_of self.new)) result }
    {
        if !wide {
            return None;
        }
        if self.callers.is_empty() {
            return Some(Event::Ended);
        }
        self.leave()
    }

    /// The next number or operator.
    fn run_on(&mut self, program: &Program<'_>) -> Option<Event>
        ensures { Machine.runs_on program.now.table.now program.now.layout program.now.local (Machine.run_of self.old)
            ≡ option_map (Machine.stepped (Machine.run_of self.new)) result }
    {
        if self.code.to <= self.code.from {
            self.end_code(program.layout.wide)
        } else if begins_number(byte_at(program.table, self.code.from as usize)) {
            self.read_number(program.table)
        } else {
            self.run_operator(program)
        }
    }

    /// One step; none if it is refused, or there were too many.
    pub fn step(&mut self, program: &Program<'_>) -> Option<Event>
        ensures { Machine.step program.now.table.now program.now.layout program.now.local (Machine.run_of self.old)
            ≡ option_map (Machine.stepped (Machine.run_of self.new)) result }
    {
        if let Some(drawing) = self.drawing {
            return self.draw(drawing);
        }
        if self.steps_left == 0 {
            return None;
        }
        self.steps_left -= 1;
        self.run_on(program)
    }
}

impl<'a> Program<'a> {
    /// What the charstring of a glyph runs in.
    pub fn of(font: &CffFont<'a>, glyph: u32) -> Program<'a>
        ensures table { result.table.now ≡ font.now.table.now }
        ensures layout { result.layout ≡ font.now.layout }
        ensures local { result.local ≡ glyph_local font.now.table.now font.now.layout glyph }
    {
        Program {
            table: font.table(),
            layout: font.layout(),
            local: font.local_subroutines(glyph),
        }
    }

    /// How many subroutines the INDEX at `at` has, none at 0.
    fn subroutine_count(&self, at: u32) -> u32
        ensures { result ≡ Machine.subroutine_count self.now.table.now self.now.layout at }
    {
        if at == 0 {
            0
        } else {
            object_count(self.table, self.layout.wide, at)
        }
    }

    /// Of how many regions variation data `i` has deltas.
    fn region_count(&self, i: u32) -> u16
        ensures { result ≡ region_count self.now.table.now self.now.layout.vstore i }
    {
        region_count(self.table, self.layout.vstore, i)
    }
}
