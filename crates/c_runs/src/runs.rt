//! Runs of a text, shaped one after the other.
ghost use Rattle.std.specs.Prelude.{◌≡◌, ◌≤◌, ◌<◌, ◌+◌, ◌-◌, ◌++◌, length, take, drop, IfOk, IfErr};
ghost use Rattle.shape_pipeline.specs.Shaped.{shaped};
ghost use Rattle.c_runs.specs.Glyphs.{glyphs_of_run};
ghost use Rattle.c_runs.specs.Outcomes.{IsStopped, Serves};
ghost use Rattle.c_runs.specs.Refusals.{IsRefused, IsValid, TextPasses};
ghost use Rattle.c_runs.specs.Texts.{text_of_run, units_of};

use crate::plain::{luthgarn_glyph, luthgarn_outcome, luthgarn_run};
use crate::refusal::{DONE, Refusal};
use crate::shaper::TextShaper;
use crate::texts::{Text, fill};
use crate::written::{count, write};
use shape_buffer::buffer::GlyphBuffer;
use std::alloc::Global;

/// What stops a call: why, and how many glyphs found no room.
#[derive(Clone, Copy)]
struct Stop {
    refusal: Refusal,
    needed: usize,
}

/// The glyphs of a run.
fn shape_run<S: TextShaper>(
    alloc: Global,
    shaper: &mut S,
    text: Text<'_>,
    run: &luthgarn_run,
) -> Result<GlyphBuffer, Refusal>
    requires { S.ready shaper.old }
    ensures ready { S.ready shaper.new }
    ensures same { S.runs shaper.new ≡ S.runs shaper.old }
    ensures font { S.font shaper.new ≡ S.font shaper.old }
    ensures glyphs { let t = text_of_run (units_of text.entry) run.now in
        IfOk result (λ glyphs. glyphs ≡ shaped (S.runs shaper.old t) t) }
    ensures valid { IfOk result (λ _. IsValid (units_of text.entry) run.now) }
    ensures err { IfErr result (λ e. IsRefused (TextPasses (S.runs shaper.old)
        (text_of_run (units_of text.entry) run.now)) (units_of text.entry) run.now e) }
{
    let mut buffer = shaper.empty(alloc);
    fill(alloc, text, run, &mut buffer)?;
    let glyphs = shaper.shape(alloc, buffer)?;
    Ok(glyphs)
}

/// Shapes a run and writes its glyphs to the places from `used` on; how many there are.
fn put_run<S: TextShaper>(
    alloc: Global,
    shaper: &mut S,
    text: Text<'_>,
    run: &luthgarn_run,
    room: &mut [luthgarn_glyph],
    used: usize,
) -> Result<usize, Stop>
    requires ready { S.ready shaper.old }
    requires used { used ≤ length room.old }
    ensures ready { S.ready shaper.new }
    ensures same { S.runs shaper.new ≡ S.runs shaper.old }
    ensures font { S.font shaper.new ≡ S.font shaper.old }
    ensures count { IfOk result (λ n. n
        ≡ length (glyphs_of_run (S.runs shaper.old) (units_of text.entry) run.now)) }
    ensures written { IfOk result (λ n. room.new ≡ take used room.old
        ++ (glyphs_of_run (S.runs shaper.old) (units_of text.entry) run.now
        ++ drop (used + n) room.old)) }
    ensures within { IfOk result (λ n. used + n ≤ length room.old) }
    ensures valid { IfOk result (λ _. IsValid (units_of text.entry) run.now) }
    ensures untouched { IfErr result (λ _. room.new ≡ room.old) }
    ensures stop { IfErr result (λ stop. IsStopped (S.runs shaper.old) (units_of text.entry) run.now
        (length room.old - used) stop.needed stop.refusal) }
{
    match shape_run(alloc, shaper, text, run) {
        Ok(glyphs) => {
            let needed = count(&glyphs);
            if room.len() - used < needed {
                return Err(Stop {
                    refusal: Refusal::Room,
                    needed,
                });
            }
            write(&glyphs, room, used);
            shaper.take_back(glyphs);
            Ok(needed)
        }
        Err(refusal) => Err(Stop { refusal, needed: 0 }),
    }
}

/// Shapes the runs of a text, and writes their glyphs one after the other, up to the first run that
/// is refused.
pub fn shape_runs<S: TextShaper>(
    alloc: Global,
    shaper: &mut S,
    text: Text<'_>,
    runs: &mut [luthgarn_run],
    room: &mut [luthgarn_glyph],
) -> luthgarn_outcome
    requires { S.ready shaper.old }
    ensures ready { S.ready shaper.new }
    ensures font { S.font shaper.new ≡ S.font shaper.old }
    ensures serves { Serves (S.runs shaper.old) (units_of text.entry)
        runs.old runs.new room.old room.new result }
{
    let mut used: usize = 0;
    for k in 0..runs.len() {
        let run = runs[k];
        match put_run(alloc, shaper, text, &run, room, used) {
            Ok(count) => {
                used += count;
                runs[k].glyphs = used;
            }
            Err(stop) => {
                return luthgarn_outcome {
                    code: stop.refusal.code(),
                    runs: k,
                    glyphs: used,
                    needed: stop.needed,
                };
            }
        }
    }
    luthgarn_outcome {
        code: DONE,
        runs: runs.len(),
        glyphs: used,
        needed: 0,
    }
}
