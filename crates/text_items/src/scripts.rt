//! The scripts of clusters: UAX 24.
ghost use Rattle.std.specs.Prelude.{◌≡◌, ◌≤◌, length, reverse, take, OnOk};
ghost use Rattle.ucd_script.specs.Script.{script_eq};
ghost use Rattle.text_items.specs.Pairs as pair_rules;
ghost use Rattle.text_items.specs.Scripts;
ghost use Rattle.text_items.specs.Scripts.{Context as ContextValue};

use crate::clusters::Cluster;
use crate::extensions::{is_among, listed};
use crate::pairs::{MAX_OPEN, Open, Side, side_of};
use std::alloc::{AllocError, Global};
use std::marker::Model;
use ucd_script::Script;

/// Whether a script is one by itself: neither Common nor Inherited.
pub fn is_explicit(script: Script) -> bool
    ensures { result ≡ Scripts.is_explicit script }
{
    script.number() != Script::Common.number() && script.number() != Script::Inherited.number()
}

/// UAX 24, 5.2: the script of a cluster, given its characters: that of the first one that has a
/// script by itself, so that a mark takes its base's and a generic base that of its mark; Common if
/// none has.
pub fn own_script(letters: &[char]) -> Script
    ensures { result ≡ Scripts.own_script letters.now }
{
    for c in letters {
        let script = Script::for_char(*c);
        if is_explicit(script) {
            return script;
        }
    }
    Script::Common
}

/// The script of a text up to its first cluster that has a script by itself: the one of that
/// cluster.
pub(crate) fn first_script(clusters: &[Cluster]) -> Script
    ensures { result ≡ Scripts.first_script clusters.now }
{
    for cluster in clusters {
        if is_explicit(cluster.script) {
            return cluster.script;
        }
    }
    Script::Common
}

/// Whether two scripts are the same.
fn is_same_script(script: Script, other: Script) -> bool
    ensures { result ≡ script_eq script other }
{
    script.number() == other.number()
}

/// The script of a cluster, given that of the text before it: one that is used with that script has
/// it, too; else it has its own, if it has one; else that of the text after it, if it is used with
/// that one.
fn settled(cluster: &Cluster, current: Script) -> Script
    ensures { result ≡ Scripts.settled cluster.now current }
{
    if is_explicit(cluster.script) && is_same_script(cluster.script, current) {
        return current;
    }
    let listed = listed(cluster.first);
    if is_among(current, cluster.first, listed) {
        return current;
    }
    if is_explicit(cluster.script) {
        return cluster.script;
    }
    if is_among(cluster.next, cluster.first, listed) {
        cluster.next
    } else {
        current
    }
}

/// The script that a text has at a place, and the brackets that are open there.
#[derive(Drop)]
pub(crate) struct Context {
    /// The script of the text before the place.
    pub current: Script,
    /// The brackets that are open, the last one last.
    brackets: Vec<Open>,
}

impl Model for Context {
    ghost Value = { ContextValue };

    ghost view = { λ c. record {
      current = c.current;
      brackets = reverse c.brackets.items;
    } };

    ghost invariant = { λ c. Unit {0} };
}

/// How many brackets are open up to the last one that a bracket closes; 0 if it closes none.
fn open_up_to(brackets: &[Open], closing: char) -> usize
    ensures within { result ≤ length brackets.now }
    ensures found { reverse (take result brackets.now) ≡ pair_rules.from_match closing (reverse brackets.now) }
{
    let mut count = brackets.len();
    while count > 0 {
        if brackets[count - 1].closing == closing {
            return count;
        }
        count -= 1;
    }
    0
}

impl Context {
    /// Before a text that begins in a script.
    pub(crate) fn new(alloc: Global, script: Script) -> Context
        ensures { result ≡ Scripts.context_of script }
    {
        Context {
            current: script,
            brackets: Vec::new(alloc),
        }
    }

    /// The script of the text before the place.
    pub(crate) fn script(&self) -> Script
        ensures { result ≡ self.now.current }
    {
        self.current
    }

    /// A bracket opens: it has the script of the text before it.
    fn open_pair(&mut self, closing: char) -> Result<(), AllocError>
        ensures { OnOk result (self.new ≡ Scripts.opened closing self.old) }
    {
        if self.brackets.len() < MAX_OPEN {
            let script = self.current;
            self.brackets.push(Open { closing, script })?;
        }
        Ok(())
    }

    /// A bracket closes: it has the script of the last one that it closes, as has the text after
    /// it.
    fn close_pair(&mut self, closing: char)
        ensures { self.new ≡ Scripts.closed closing self.old }
    {
        let count = open_up_to(&self.brackets, closing);
        if count > 0 {
            self.current = self.brackets[count - 1].script;
            self.brackets.truncate(count - 1);
        }
    }

    /// One cluster further on. The cluster has the script that the text then has.
    pub(crate) fn step(&mut self, cluster: &Cluster) -> Result<(), AllocError>
        ensures { OnOk result (self.new ≡ Scripts.stepped cluster.now self.old) }
    {
        self.current = settled(cluster, self.current);
        if is_explicit(cluster.script) {
            return Ok(());
        }
        match side_of(cluster.first) {
            Side::Opens(closing) => self.open_pair(closing)?,
            Side::Closes(closing) => self.close_pair(closing),
            Side::Neither => {}
        }
        Ok(())
    }
}
