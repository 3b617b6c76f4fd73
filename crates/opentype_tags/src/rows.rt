//! OpenType's tags of languages by their first subtag (BCP 47), as HarfBuzz 10.2.0 maps the
//! registry of November 2024. A row is a subtag of two or three letters, filled up with spaces, and
//! a tag; the preferred tag of a language comes first, and 0 stands for a language that has none.
ghost use Rattle.std.specs.Prelude.{◌≡◌};
ghost use Rattle.opentype_tags.specs.Rows.{rows_of};

mod a_to_b;
mod c_to_h;
mod i_to_l;
mod m_to_o;
mod p_to_s;
mod t_to_z;

/// The rows of the languages whose subtag begins with a letter.
pub(crate) fn rows_of(letter: u8) -> &'static [(u32, u32)]
    ensures { result.now ≡ rows_of letter }
{
    match letter {
        b'a' => &a_to_b::A,
        b'b' => &a_to_b::B,
        b'c' => &c_to_h::C,
        b'd' => &c_to_h::D,
        b'e' => &c_to_h::E,
        b'f' => &c_to_h::F,
        b'g' => &c_to_h::G,
        b'h' => &c_to_h::H,
        b'i' => &i_to_l::I,
        b'j' => &i_to_l::J,
        b'k' => &i_to_l::K,
        b'l' => &i_to_l::L,
        b'm' => &m_to_o::M,
        b'n' => &m_to_o::N,
        b'o' => &m_to_o::O,
        b'p' => &p_to_s::P,
        b'q' => &p_to_s::Q,
        b'r' => &p_to_s::R,
        b's' => &p_to_s::S,
        b't' => &t_to_z::T,
        b'u' => &t_to_z::U,
        b'v' => &t_to_z::V,
        b'w' => &t_to_z::W,
        b'x' => &t_to_z::X,
        b'y' => &t_to_z::Y,
        b'z' => &t_to_z::Z,
        _ => &[],
    }
}
