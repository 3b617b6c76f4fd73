//! The smallest program over a font file: shapes a word, and prints each glyph with its cluster and
//! its advance.
#![tactic(auto)]

use font_shaping::{GlyphBuffer, UnicodeDatabase, shape_with_bytes};
use std::process::ExitCode;
use std::{fs, io};

/// Prints a line for each glyph.
fn print(rt: &HostRuntime, glyphs: &GlyphBuffer) -> io::Result<()> {
    for (info, position) in glyphs.glyph_infos().iter().zip(glyphs.glyph_positions()) {
        let (glyph, cluster, advance) = (info.glyph_id, info.cluster, position.x_advance);
        println!(rt; "glyph {glyph}, cluster {cluster}, advance {advance}")?;
    }
    Ok(())
}

fn main(rt: HostRuntime) -> io::Result<ExitCode> {
    let bytes = fs::read(&rt, "tall.ttf")?;
    match shape_with_bytes::<UnicodeDatabase>(rt.alloc(), &bytes, 0, &[], "ABBA") {
        Ok(glyphs) => {
            print(&rt, &glyphs)?;
            Ok(ExitCode::SUCCESS)
        }
        Err(error) => {
            println!(rt; "refused: {error:?}")?;
            Ok(ExitCode::FAILURE)
        }
    }
}
