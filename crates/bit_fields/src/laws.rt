//! Laws of fields side by side: each function has a law as its contract, and nothing to do.
//!
//! They hold for words of any number of bits and for all widths.
ghost use Rattle.bit_fields.specs.FieldLaws.{PutFieldChangesAlone, FieldIsReadAtItsPlace};
ghost use Rattle.bit_fields.specs.FieldLaws.{WordIsMadeOfItsFields, FieldsAreThoseOfTheirWord};
ghost use Rattle.bit_fields.specs.FieldLaws.{EqualFieldsEqualWords, FieldsJoin};
ghost use Rattle.bit_fields.specs.FieldLaws.{PutFieldStaysInWord, MaskPutsField};
ghost use Rattle.bit_fields.specs.Worked.Fields.{FieldsWorked};

/// A value that is put into a field is there, and all other fields are as they were.
pub fn a_put_field_changes_alone()
    ensures { PutFieldChangesAlone }
{}

/// A field of the list is what is read at the field's place.
pub fn a_field_is_read_at_its_place()
    ensures { FieldIsReadAtItsPlace }
{}

/// A word is made of its fields: it has those that it was made of, and made of its own it is
/// itself. So two words with equal fields are equal.
pub fn a_word_is_its_fields()
    ensures made { WordIsMadeOfItsFields }
    ensures read { FieldsAreThoseOfTheirWord }
    ensures equal { EqualFieldsEqualWords }
{}

/// The fields of two words, one of them directly above the other, are those of the lower one and
/// then those of the upper one.
pub fn fields_join()
    ensures { FieldsJoin }
{}

/// A word keeps its number of bits if a field within them is put in.
pub fn a_put_field_stays_in_the_word()
    ensures { PutFieldStaysInWord }
{}

/// Clearing the bits of a field and setting those of a value that fits puts the value into the
/// field.
pub fn a_mask_puts_a_field()
    ensures { MaskPutsField }
{}

/// The definitions agree with cases that were worked out by hand.
pub fn fields_meet_worked_cases()
    ensures { FieldsWorked }
{}
