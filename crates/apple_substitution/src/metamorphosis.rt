//! The table `morx` over a text: its chains one after the other.
ghost use Rattle.std.specs.Prelude.{◌≡◌, true, false, OnOk, IsErrOf};
ghost use Rattle.apple_substitution.specs.ChainRuns.{source_of};
ghost use Rattle.apple_substitution.specs.ChainRuns as chain_rules;
ghost use Rattle.apple_substitution.specs.Edits.{is_past};
ghost use Rattle.apple_substitution.specs.Metamorphosis as morx_rules;
ghost use Rattle.shape_buffer.specs.Outcome.{Outcome, step};
ghost use Rattle.shape_buffer.specs.declared.buffer.error.ShapeError.TheVariants.{Length};

use crate::chain_runs::{Metamorphosis, run_chain};
use crate::feature_ranges::flags_work;
use crate::parts;
use crate::parts::{CHAIN, charge, is_end, size_of};
use shape_buffer::{ShapeError, hb_buffer_t};
use shape_font::bytes::{u16_at, u32_at};
use std::alloc::Global;

/// Whether a font has the table: one of version 0 is none.
pub fn is_present(morx: &[u8]) -> bool
    ensures { result ≡ morx_rules.is_present morx.now }
{
    u16_at(morx, 0) != 0
}

/// Runs so many chains.
#[tactic(auto, using(crate::proofs::PartLemmas::all_made))]
fn run_chains(
    alloc: Global,
    table: &Metamorphosis<'_>,
    count: u32,
    buffer: &mut hb_buffer_t,
) -> Result<(), ShapeError>
    ensures ok { OnOk result (buffer.new
        ≡ morx_rules.chains_run (source_of table.now) count buffer.old) }
    ensures length { IsErrOf result Length → is_past
        (morx_rules.chains_run (source_of table.now) count buffer.old) ≡ true }
{
    let morx = table.tables.morx;
    let mut at: u32 = 8;
    for _i in 0..count {
        let work = flags_work(morx, at, table.features, &table.languages);
        if is_end(morx, CHAIN, at as usize, work, buffer) {
            return Ok(());
        }
        charge(work, buffer);
        match run_chain(alloc, table, at, buffer) {
            Err(error) => return Err(error),
            Ok(()) => at += size_of(morx, CHAIN, at as usize),
        }
    }
    Ok(())
}

/// Runs the chains of the table, and tells of a list that is past the limit then.
#[tactic(auto, unfolding(crate::specs::Metamorphosis::metamorphosed))]
fn run_all(
    alloc: Global,
    table: &Metamorphosis<'_>,
    buffer: &mut hb_buffer_t,
) -> Result<(), ShapeError>
    ensures ok { OnOk result (buffer.new
        ≡ morx_rules.metamorphosed (source_of table.now) buffer.old) }
    ensures within { OnOk result (is_past buffer.new ≡ false) }
    ensures length { IsErrOf result Length → is_past
        (morx_rules.metamorphosed (source_of table.now) buffer.old) ≡ true }
{
    let morx = table.tables.morx;
    if is_present(morx) {
        buffer.unsafe_to_concat(0, buffer.len());
        run_chains(alloc, table, u32_at(morx, 4), buffer)?;
    }
    if parts::is_past(buffer) {
        return Err(ShapeError::Length);
    }
    Ok(())
}

/// Runs the chains of the table over a text, as HarfBuzz's `hb_aat_layout_substitute` does. What
/// they cost is taken of the buffer's `max_ops`; a chain or a subtable that what is left doesn't
/// suffice for is the end. Refuses with `Length` if the list is past the limit of the run then, and
/// in no other case, and with `Memory` if a growth was refused. After a refusal the buffer may have
/// lost its items.
pub fn run_table(
    alloc: Global,
    table: &Metamorphosis<'_>,
    buffer: &mut hb_buffer_t,
) -> Result<(), ShapeError>
    ensures ok { OnOk result (buffer.new
        ≡ morx_rules.metamorphosed (source_of table.now) buffer.old) }
    ensures within { OnOk result (is_past buffer.new ≡ false) }
    ensures length { IsErrOf result Length → is_past
        (morx_rules.metamorphosed (source_of table.now) buffer.old) ≡ true }
    ensures outcome { Outcome (step (morx_rules.metamorphosed (source_of table.now)))
        buffer.old buffer.new result }
{
    run_all(alloc, table, buffer)
}
