//! The rule X10: isolating run sequences, and the rules that each of them takes.
ghost use Rattle.std.specs.Prelude.{◌≡◌, ◌≤◌, ℕ, List, [], length, map, replicate, reverse, IfOk, OnOk};
ghost use Rattle.bidi.specs.Sequences;
ghost use Rattle.bidi.specs.Sequences.{AreWithin, IsWithin, Walk as WalkValue};

use crate::brackets::brackets;
use crate::classes::{is, is_initiator, of_level};
use crate::members::Member;
use crate::neutral::{implicit_level, neutral};
use crate::places::put;
use crate::weak::weak;
use std::alloc::{AllocError, Global};
use std::marker::Model;
use std::mem;
use ucd_bidi::BidiClass;

/// X10: sos, the direction before a sequence that begins with a member.
fn sos_of(first: Member) -> BidiClass
    ensures { result ≡ Sequences.sos_of first }
{
    of_level(first.before.max(first.level))
}

/// X10: eos, the direction after a sequence that ends with a member.
fn eos_of(base: u8, last: Member) -> BidiClass
    ensures { result ≡ Sequences.eos_of base last }
{
    let after = if is_initiator(last.original) {
        base
    } else {
        last.after
    };
    of_level(after.max(last.level))
}

/// X10: the rules W1 to N2 over the classes of a sequence.
fn resolve_classes(
    alloc: Global,
    base: u8,
    members: &[Member],
    first: Member,
    last: Member,
    classes: &mut [BidiClass],
) -> Result<(), AllocError>
    requires { length classes.old ≡ length members.now }
    ensures { OnOk result (classes.new
        ≡ Sequences.resolved_classes base members.now first last classes.old) }
{
    let embedding = of_level(first.level);
    let sos = sos_of(first);
    let eos = eos_of(base, last);
    weak(classes, sos);
    brackets(alloc, members, classes, embedding, sos)?;
    neutral(classes, embedding, sos, eos);
    Ok(())
}

/// I1 and I2: the levels of a sequence, written to the places of its members.
fn write_levels(members: &[Member], classes: &[BidiClass], levels: &mut [u8])
    requires same { length classes.now ≡ length members.now }
    requires within { AreWithin members.now }
    ensures { levels.new ≡ Sequences.with_levels members.now classes.now levels.old }
{
    for i in 0..members.len() {
        let level = implicit_level(members[i].level, classes[i]);
        put(levels, members[i].place, level);
    }
}

/// X10 for a sequence of these classes: the rules, and then its levels.
fn resolve_with(
    alloc: Global,
    base: u8,
    members: &[Member],
    classes: &mut [BidiClass],
    levels: &mut [u8],
) -> Result<(), AllocError>
    requires same { length classes.old ≡ length members.now }
    requires within { AreWithin members.now }
    ensures { OnOk result (levels.new
        ≡ Sequences.with_classes base members.now classes.old levels.old) }
{
    if members.is_empty() {
        return Ok(());
    }
    let first = members[0];
    let last = members[members.len() - 1];
    resolve_classes(alloc, base, members, first, last, classes)?;
    write_levels(members, classes, levels);
    Ok(())
}

/// X10 for a sequence.
fn resolve(alloc: Global, base: u8, members: &[Member], levels: &mut [u8]) -> Result<(), AllocError>
    requires { AreWithin members.now }
    ensures { OnOk result (levels.new ≡ Sequences.with_sequence base members.now levels.old) }
{
    let mut classes = member_classes(alloc, members)?;
    resolve_with(alloc, base, members, &mut classes, levels)
}

/// The classes of members after X1 to X8.
fn member_classes(alloc: Global, members: &[Member]) -> Result<Vec<BidiClass>, AllocError>
    ensures { IfOk result (λ classes. classes.items ≡ map Sequences.class_of members.now) }
{
    members.iter().map(|member| member.class).collect(alloc)
}

/// A walk over the members that ends each sequence in its turn.
#[derive(Drop)]
pub(crate) struct Walk {
    /// The sequence so far.
    current: Vec<Member>,
    /// For each isolate that is open the sequence that its initiator interrupts; empty if what
    /// follows it is on its level.
    opened: Vec<Vec<Member>>,
    /// The levels, those of the sequences that ended resolved.
    pub levels: Vec<u8>,
}

impl Model for Walk {
    ghost Value = { WalkValue (List ℕ) };

    ghost view = { λ w. record {
      current = w.current.items;
      opened = map (λ v. v.items) (reverse w.opened.items);
      done = w.levels.items;
    } };

    ghost invariant = { λ w. Unit {0} };
}

impl Walk {
    /// Before the first member.
    fn new(alloc: Global, levels: Vec<u8>) -> Walk
        ensures { result ≡ Sequences.start levels.items }
    {
        Walk {
            current: Vec::new(alloc),
            opened: Vec::new(alloc),
            levels,
        }
    }

    /// The sequence so far ends.
    fn finish(&mut self, alloc: Global, base: u8) -> Result<(), AllocError>
        requires { AreWithin self.old.current }
        ensures { OnOk result (self.new ≡ Sequences.finished (Sequences.with_sequence base) self.old) }
    {
        resolve(alloc, base, &self.current, &mut self.levels)?;
        self.current.clear();
        Ok(())
    }

    /// BD9, BD13: the sequence of the isolate initiator that a PDI matches goes on with it.
    fn return_to(&mut self, alloc: Global, base: u8, member: Member) -> Result<(), AllocError>
        requires { AreWithin self.old.current }
        ensures { OnOk result (self.new
            ≡ Sequences.returned (Sequences.with_sequence base) member self.old) }
    {
        if !is(member.original, BidiClass::PopDirectionalIsolate) {
            return Ok(());
        }
        let Some(interrupted) = self.opened.pop() else {
            return Ok(());
        };
        if interrupted.is_empty() {
            return Ok(());
        }
        self.finish(alloc, base)?;
        self.current = interrupted;
        Ok(())
    }

    /// BD7: a member goes on with the sequence if it is on its level, and else begins one.
    fn join(&mut self, alloc: Global, base: u8, member: Member) -> Result<(), AllocError>
        requires { AreWithin self.old.current }
        ensures { OnOk result (self.new
            ≡ Sequences.joined (Sequences.with_sequence base) member self.old) }
    {
        if starts_anew(&self.current, member) {
            self.finish(alloc, base)?;
        }
        self.current.push(member)?;
        Ok(())
    }

    /// BD13: an isolate initiator interrupts its sequence, if what follows it is on another level.
    fn interrupt(&mut self, alloc: Global, member: Member) -> Result<(), AllocError>
        ensures { OnOk result (self.new ≡ Sequences.interrupted member self.old) }
    {
        if !is_initiator(member.original) {
            return Ok(());
        }
        if member.after == member.level {
            self.opened.push(Vec::new(alloc))?;
            return Ok(());
        }
        let current = mem::replace(&mut self.current, Vec::new(alloc));
        self.opened.push(current)?;
        Ok(())
    }

    /// X10 for a member.
    fn step(&mut self, alloc: Global, base: u8, member: Member) -> Result<(), AllocError>
        requires { IsWithin self.old }
        ensures { OnOk result (self.new
            ≡ Sequences.walk_step (Sequences.with_sequence base) member self.old) }
    {
        self.return_to(alloc, base, member)?;
        self.join(alloc, base, member)?;
        self.interrupt(alloc, member)
    }

    /// The sequence so far ends, and those that no PDI goes on with: the levels.
    fn end(self, alloc: Global, base: u8) -> Result<Vec<u8>, AllocError>
        requires { IsWithin self }
        ensures { IfOk result (λ levels. levels.items
            ≡ Sequences.ended (Sequences.with_sequence base) self) }
    {
        let Walk {
            current,
            mut opened,
            mut levels,
        } = self;
        resolve(alloc, base, &current, &mut levels)?;
        while let Some(sequence) = opened.pop() {
            resolve(alloc, base, &sequence, &mut levels)?;
        }
        Ok(levels)
    }
}

/// Whether a member is on another level than a sequence.
fn starts_anew(current: &[Member], member: Member) -> bool
    ensures { result ≡ Sequences.starts_anew current.now member }
{
    match current.first() {
        Some(first) => first.level != member.level,
        None => false,
    }
}

/// X10: the levels of a paragraph after X1 to X8, resolved by its isolating run sequences.
pub(crate) fn resolve_sequences(
    alloc: Global,
    base: u8,
    members: &[Member],
    levels: Vec<u8>,
) -> Result<Vec<u8>, AllocError>
    requires { AreWithin members.now }
    ensures { IfOk result (λ new. new.items
        ≡ Sequences.with_sequences base members.now levels.items) }
{
    let mut walk = Walk::new(alloc, levels);
    for i in 0..members.len() {
        walk.step(alloc, base, members[i])?;
    }
    walk.end(alloc, base)
}

/// X10 for members that are one sequence, in a paragraph of `count` characters on its level.
pub(crate) fn one_sequence(
    alloc: Global,
    base: u8,
    members: &[Member],
    count: usize,
) -> Result<Vec<u8>, AllocError>
    requires { AreWithin members.now }
    ensures levels { IfOk result (λ levels. levels.items
        ≡ Sequences.with_sequence base members.now (replicate count base)) }
    ensures count { IfOk result (λ levels. length levels.items ≡ count) }
{
    let mut levels = vec![in alloc; base; count]?;
    resolve(alloc, base, members, &mut levels)?;
    Ok(levels)
}
