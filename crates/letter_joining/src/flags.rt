//! Flags of glyphs that joining needs: where a text can't be cut, or put together, without shaping
//! it again.
ghost use Rattle.std.specs.Prelude.{◌≡◌, ◌<◌, ◌≤◌, length, false, None};
ghost use Rattle.shape_items.specs.Buffer.{limit_of};
ghost use Rattle.shape_buffer.specs.Outcome.{Made};
ghost use Rattle.letter_joining.specs.Forms.{kind_before, kind_after, begun};
ghost use Rattle.letter_joining.specs.Flags.{joins_back, may_change, changes};
ghost use Rattle.letter_joining.specs.Flags.{marked_pair, start_of, marked_by, walk_by};
ghost use Rattle.letter_joining.specs.Flags.{mark_walk, marked_at, marked_to, marked_end};
ghost use Rattle.letter_joining.specs.Flags.{begun_walk, marked};

use crate::forms::{begun, kind_after, kind_before};
use crate::joining::{Form, Kind, State, form_before, kind_of, next_state};
use shape_buffer::buffer::hb_buffer_t;

/// Where a walk over letters stands: what is before the next letter, and the place of the letter
/// before it.
#[derive(Clone, Copy, Debug)]
pub struct Walk {
    pub state: State,
    pub place: Option<usize>,
}

fn joins_back(kind: Kind) -> bool
    ensures { result ≡ joins_back kind }
{
    match kind {
        Kind::Apart | Kind::Left => false,
        _ => true,
    }
}

/// Whether the next letter may change the form of the one before it.
fn may_change(state: State) -> bool
    ensures { result ≡ may_change state }
{
    match state {
        State::Begun | State::Going | State::JoinedAlaph | State::FinalAlaph => true,
        _ => false,
    }
}

fn changes(state: State, kind: Kind) -> bool
    ensures { result ≡ changes state kind }
{
    match form_before(state, kind) {
        Form::None => false,
        _ => true,
    }
}

/// Marks a letter with the one before it: `joined` if that one changes, `apart` if one of the two
/// might.
#[inline(always)]
fn mark_pair(buffer: &mut hb_buffer_t, joined: bool, apart: bool, start: usize, end: usize)
    requires ordered { start ≤ end }
    requires within { end ≤ length buffer.old.items }
    ensures made { buffer.new ≡ marked_pair joined apart start end buffer.old }
    ensures len { length buffer.new.items ≡ length buffer.old.items }
    ensures limit { limit_of buffer.new ≡ limit_of buffer.old }
{
    if joined {
        buffer.safe_to_insert_tatweel(start, end);
    } else if apart {
        buffer.unsafe_to_concat(start, end);
    }
}

/// The place of the letter before, at most `i`; 0 if there is none.
fn start_of(walk: Walk, i: usize) -> usize
    ensures value { result ≡ start_of walk i }
    ensures before { result ≤ i }
{
    match walk.place {
        Some(place) => place.min(i),
        None => 0,
    }
}

/// Where a walk stands after an item.
fn walk_by(walk: Walk, kind: Option<Kind>, i: usize) -> Walk
    ensures { result ≡ walk_by walk kind i }
{
    match kind {
        Some(kind) => Walk {
            state: next_state(walk.state, kind),
            place: Some(i),
        },
        None => walk,
    }
}

/// Marks a letter of a kind with the one before it.
fn mark_by(buffer: &mut hb_buffer_t, walk: Walk, kind: Option<Kind>, i: usize)
    requires { i < length buffer.old.items }
    ensures made { buffer.new ≡ marked_by walk kind i buffer.old }
    ensures len { length buffer.new.items ≡ length buffer.old.items }
    ensures limit { limit_of buffer.new ≡ limit_of buffer.old }
{
    let _count = buffer.len();
    if let Some(kind) = kind {
        let some = walk.place.is_some();
        let joined = some && changes(walk.state, kind);
        let apart = joins_back(kind) || (some && may_change(walk.state));
        mark_pair(buffer, joined, apart, start_of(walk, i), i + 1);
    }
}

/// Marks the item at a place with the letter before it, and returns where the walk stands then.
fn mark_at(buffer: &mut hb_buffer_t, walk: Walk, i: usize) -> Walk
    requires { i < length buffer.old.items }
    ensures made { buffer.new ≡ marked_at walk i buffer.old }
    ensures value { result ≡ mark_walk walk i buffer.old }
    ensures len { length buffer.new.items ≡ length buffer.old.items }
    ensures limit { limit_of buffer.new ≡ limit_of buffer.old }
{
    let kind = kind_of(buffer.infos()[i].codepoint);
    mark_by(buffer, walk, kind, i);
    walk_by(walk, kind, i)
}

/// Marks the last letter, by the kind of what stands after the text.
fn mark_end(buffer: &mut hb_buffer_t, walk: Walk, after: Option<Kind>)
    ensures made { buffer.new ≡ marked_end walk after buffer.old }
    ensures len { length buffer.new.items ≡ length buffer.old.items }
    ensures limit { limit_of buffer.new ≡ limit_of buffer.old }
{
    if let Some(kind) = after {
        let end = buffer.len();
        let some = walk.place.is_some();
        let joined = some && changes(walk.state, kind);
        let apart = some && may_change(walk.state);
        mark_pair(buffer, joined, apart, start_of(walk, end), end);
    }
}

/// Marks all letters.
pub fn mark_all(buffer: &mut hb_buffer_t)
    ensures { Made marked buffer.old buffer.new }
{
    let before = begun(kind_before(buffer.pre_context()));
    let after = kind_after(buffer.post_context());
    let mut walk = Walk {
        state: before.state,
        place: None,
    };
    for i in 0..buffer.len() {
        walk = mark_at(buffer, walk, i);
    }
    mark_end(buffer, walk, after);
}
