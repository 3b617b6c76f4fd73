//! Laws of the definitions, which no function's result shows.
ghost use Rattle.std.specs.Prelude.{◌≡◌, ℕ, true, List, length, replicate, None, Some, IsPermutation};
ghost use Rattle.std.specs.List.{list_all};
ghost use Rattle.bidi.specs.Left.{is_left};
ghost use Rattle.bidi.specs.Levels.{classes_of};
ghost use Rattle.bidi.specs.Sequences;
ghost use Rattle.bidi.specs.Text;
ghost use Rattle.bidi.specs.declared.levels.Direction.TheVariants as direction;
ghost use Rattle.bidi.specs.declared.members.Member.{Member as AnyMember};

/// BD13: each character that X9 leaves belongs to exactly one isolating run sequence.
pub fn sequences_part_members()
    ensures { (members : List AnyMember)
        → IsPermutation members (Sequences.members_of_all (Sequences.sequences members)) }
{}

/// A text with no character of R, AL or AN and none that embeds, overrides or isolates is on one
/// level, unless its paragraphs are right to left.
pub fn left_to_right_texts_have_one_level()
    ensures { (text : List ℕ) → list_all is_left (classes_of text) ≡ true
        → (Text.text_levels None text ≡ replicate (length text) 0)
        × (Text.text_levels (Some direction.LeftToRight) text ≡ replicate (length text) 0) }
{}
