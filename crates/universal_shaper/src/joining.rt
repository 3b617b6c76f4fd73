//! Scripts whose letters join as those of Arabic do.
ghost use Rattle.std.specs.Prelude.{◌≡◌};
ghost use Rattle.shape_buffer.specs.Outcome.{Made};
ghost use Rattle.universal_shaper.specs.Joining;

use letter_joining::features::is_mongolian;
use letter_joining::forms::FormMasks;
use letter_joining::join_all;
use shape_buffer::buffer::{Script, hb_buffer_t};

/// Whether a script joins: Adlam, Arabic, Chorasmian, Hanifi Rohingya, Mandaic, Manichaean,
/// Mongolian, N'Ko, Old Uyghur, Phags-pa, Psalter Pahlavi, Sogdian, Syriac.
pub fn joins(script: Option<Script>) -> bool
    ensures { result ≡ Joining.joins script }
{
    match script {
        Some(script) => matches!(
            script.0.0,
            0x4164_6C6D
                | 0x4172_6162
                | 0x4368_7273
                | 0x526F_6867
                | 0x4D61_6E64
                | 0x4D61_6E69
                | 0x4D6F_6E67
                | 0x4E6B_6F6F
                | 0x4F75_6772
                | 0x5068_6167
                | 0x5068_6C70
                | 0x536F_6764
                | 0x5379_7263
        ),
        None => false,
    }
}

/// Sets the forms of letters if a script joins.
pub fn join_if(masks: FormMasks, script: Option<Script>, buffer: &mut hb_buffer_t)
    ensures { Made (Joining.joined_if masks script) buffer.old buffer.new }
{
    if joins(script) {
        join_all(masks, is_mongolian(script), buffer);
    }
}
