//! The features of the forms of letters, and the one script in which a variation selector has a
//! form, too.
ghost use Rattle.std.specs.Prelude.{◌≡◌};
ghost use Rattle.letter_joining.specs.Features.{is_mongolian};

use shape_buffer::buffer::{Script, hb_tag_t};

/// The form of a letter by itself.
pub const ISOL: hb_tag_t = hb_tag_t(0x6973_6F6C);

/// The form of one that ends joined letters.
pub const FINA: hb_tag_t = hb_tag_t(0x6669_6E61);

/// That of an alaph after a letter that it doesn't join.
pub const FIN2: hb_tag_t = hb_tag_t(0x6669_6E32);

/// That of an alaph after a dalath or rish.
pub const FIN3: hb_tag_t = hb_tag_t(0x6669_6E33);

/// The form of one between two.
pub const MEDI: hb_tag_t = hb_tag_t(0x6D65_6469);

/// That of an alaph in the middle.
pub const MED2: hb_tag_t = hb_tag_t(0x6D65_6432);

/// The form of one that begins joined letters.
pub const INIT: hb_tag_t = hb_tag_t(0x696E_6974);

/// Whether a script is Mongolian, whose variation selectors take the form of their letter.
pub fn is_mongolian(script: Option<Script>) -> bool
    ensures { result ≡ is_mongolian script }
{
    match script {
        Some(script) => script.0.0 == 0x4D6F_6E67,
        None => false,
    }
}
