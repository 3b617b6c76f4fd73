//! A list with a gap in its storage, where items come and go.
ghost use Rattle.std.specs.Prelude.{◌≡◌, ◌+◌, ◌≤◌, ◌<◌, ◌++◌, length, insert, remove, replicate, slice_set};
ghost use Rattle.std.specs.Prelude.{IfOk, OnOk, OnErr, IsOkUnless};
ghost use Rattle.layout_buffer.specs.Gap.{around};
ghost use Rattle.layout_buffer.specs.GapLists.{list_of, IsGap};

use shape_buffer::ShapeError;

/// The least room that is made at once.
const LEAST_ROOM: usize = 16;

/// A list. Its storage has a gap of `room` places, which begins at `at`; what stands in the gap is
/// no part of the list.
#[derive(Drop)]
pub(crate) struct GapList<T> {
    pub(crate) stored: Vec<T>,
    pub(crate) at: usize,
    pub(crate) room: usize,
}

/// Moves the gap of a list to another place. The time is in step with how far it goes (measured,
/// not proved); a gap without room goes anywhere at once.
#[tactic(auto, using(crate::proofs::GapLemmas::around_no_room, crate::proofs::GapLemmas::gap_left, crate::proofs::GapLemmas::gap_right))]
pub(crate) fn move_gap<T: Copy>(stored: &mut [T], at: usize, room: usize, to: usize)
    requires from { at + room ≤ length stored.old }
    requires inside { to + room ≤ length stored.old }
    ensures len { length stored.new ≡ length stored.old }
    ensures same { around to room stored.new ≡ around at room stored.old }
{
    if room == 0 {
        return;
    }
    if to < at {
        stored.copy_within(to..at, to + room);
    } else {
        stored.copy_within(at + room..to + room, at);
    }
}

/// Makes room at the end of storage, as much as it holds, and tells how much. Refuses with `Memory`
/// alone, if a growth was refused; a refused call changes nothing.
fn widen<T: Copy>(stored: &mut Vec<T>, filler: T) -> Result<usize, ShapeError>
    ensures room { IfOk result (λ room. (0 < room)
        × (stored.new.items ≡ stored.old.items ++ replicate room filler)) }
    ensures memory { IsOkUnless result ShapeError.Memory }
    ensures err { OnErr result (stored.new.items ≡ stored.old.items) }
{
    let before = stored.len();
    let room = before.max(LEAST_ROOM);
    let Some(wanted) = before.checked_add(room) else {
        return Err(ShapeError::Memory);
    };
    stored.resize(wanted, filler)?;
    Ok(room)
}

impl<T: Copy> GapList<T> {
    /// The list of a vector: no gap yet.
    #[tactic(auto, using(crate::proofs::GapLemmas::around_no_room))]
    pub(crate) fn from_vec(stored: Vec<T>) -> Self
        ensures gap { IsGap result }
        ensures list { list_of result ≡ stored.items }
    {
        GapList {
            stored,
            at: 0,
            room: 0,
        }
    }

    /// How many items there are.
    #[tactic(auto, using(crate::proofs::GapLemmas::length_around))]
    pub(crate) fn len(&self) -> usize
        requires { IsGap self.now }
        ensures count { result ≡ length (list_of self.now) }
        ensures sum { result + self.now.room ≡ length self.now.stored.items }
    {
        self.stored.len() - self.room
    }

    /// The items before the gap and those after it.
    pub(crate) fn parts(&self) -> (&[T], &[T])
        requires { IsGap self.now }
        ensures { result.0.now ++ result.1.now ≡ list_of self.now }
    {
        (&self.stored[..self.at], &self.stored[self.at + self.room..])
    }

    /// Replaces an item.
    #[tactic(auto, using(crate::proofs::GapLemmas::set_before, crate::proofs::GapLemmas::set_after))]
    pub(crate) fn set(&mut self, i: usize, item: T)
        requires gap { IsGap self.old }
        requires inside { i + self.old.room < length self.old.stored.items }
        ensures gap { IsGap self.new }
        ensures list { list_of self.new ≡ slice_set (list_of self.old) i item }
    {
        if i < self.at {
            self.stored[i] = item;
        } else {
            self.stored[i + self.room] = item;
        }
    }

    /// Takes an item out: the gap goes to it and takes its place in.
    #[tactic(auto, using(crate::proofs::GapLemmas::gap_removes))]
    pub(crate) fn remove(&mut self, i: usize)
        requires gap { IsGap self.old }
        requires inside { i + self.old.room < length self.old.stored.items }
        ensures gap { IsGap self.new }
        ensures list { list_of self.new ≡ remove (list_of self.old) i }
    {
        move_gap(self.stored.as_mut_slice(), self.at, self.room, i);
        self.at = i;
        self.room += 1;
    }

    /// Makes room if there is none; what stands in it is this filler. Refuses with `Memory` alone,
    /// if a growth was refused. The list stays in any case.
    #[tactic(auto, using(crate::proofs::GapLemmas::around_no_room, crate::proofs::GapLemmas::gap_at_end))]
    pub(crate) fn make_room(&mut self, filler: &T) -> Result<(), ShapeError>
        requires { IsGap self.old }
        ensures gap { IsGap self.new }
        ensures list { list_of self.new ≡ list_of self.old }
        ensures ok { OnOk result (0 < self.new.room) }
        ensures memory { IsOkUnless result ShapeError.Memory }
    {
        if self.room != 0 {
            return Ok(());
        }
        self.at = self.stored.len();
        self.room = widen(&mut self.stored, *filler)?;
        Ok(())
    }

    /// Puts an item in before the one at `i`, at the end if `i` is the length: the gap goes there
    /// and gives it a place.
    #[tactic(auto, using(crate::proofs::GapLemmas::gap_gives))]
    pub(crate) fn insert(&mut self, i: usize, item: T)
        requires gap { IsGap self.old }
        requires some { 0 < self.old.room }
        requires inside { i + self.old.room ≤ length self.old.stored.items }
        ensures gap { IsGap self.new }
        ensures list { list_of self.new ≡ insert (list_of self.old) i item }
    {
        move_gap(self.stored.as_mut_slice(), self.at, self.room, i);
        self.stored[i] = item;
        self.at = i + 1;
        self.room -= 1;
    }

    /// The list as a vector.
    #[tactic(auto, using(crate::proofs::GapLemmas::around_end))]
    pub(crate) fn into_vec(self) -> Vec<T>
        requires { IsGap self }
        ensures { result.items ≡ list_of self }
    {
        let mut list = self;
        let end = list.stored.len() - list.room;
        move_gap(list.stored.as_mut_slice(), list.at, list.room, end);
        list.stored.truncate(end);
        list.stored
    }
}
