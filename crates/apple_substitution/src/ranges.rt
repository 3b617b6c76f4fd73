//! Features in ranges of a text.
ghost use Rattle.std.specs.Prelude.{◌≡◌, length};
ghost use Rattle.apple_substitution.specs.Ranges as range_rules;
ghost use Rattle.shape_items.specs.Buffer.{Buffer};

/// What a step at a glyph costs, in looks at a glyph: a class or a value is searched for, and entries
/// are read.
pub(crate) const STEP_WORK: usize = 16;

/// A range of clusters with the flags of the features that are on there.
#[derive(Clone, Copy, Debug)]
pub struct FlagRange {
    /// The last cluster of the range.
    pub last: u32,
    /// The flags of the features that are on.
    pub flags: u32,
}

/// The ranges of a text, in their order, and the flags of a subtable.
#[derive(Clone, Copy)]
pub struct Ranges<'a> {
    /// The ranges. The last one ends with the greatest cluster.
    pub list: &'a [FlagRange],
    /// The flags that have the subtable on.
    pub wanted: u32,
}

/// Which range is the first that doesn't end before a cluster.
fn place_of(list: &[FlagRange], cluster: u32) -> usize
    ensures { result ≡ range_rules.place_of list.now cluster }
{
    list.iter().take_while(|range| range.last < cluster).count()
}

/// The flags of a range, none past the last one.
fn flags_at(list: &[FlagRange], i: usize) -> u32
    ensures { result ≡ range_rules.flags_at list.now i }
{
    if i < list.len() { list[i].flags } else { 0 }
}

impl<'a> Ranges<'a> {
    /// Whether the subtable is on for the glyphs of a cluster.
    pub fn is_on(&self, cluster: u32) -> bool
        ensures { result ≡ range_rules.is_on self.now.list.now self.now.wanted cluster }
    {
        flags_at(self.list, place_of(self.list, cluster)) & self.wanted != 0
    }
}

/// What a walk over so many glyphs costs.
pub(crate) fn walk_work(ranges: &Ranges<'_>, count: usize) -> usize
    ensures { (b : Buffer) → count ≡ length b.items
        → result ≡ range_rules.walk_work (length ranges.now.list.now) b }
{
    count.saturating_mul(STEP_WORK.saturating_add(ranges.list.len()))
}
