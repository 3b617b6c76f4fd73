//! A chain of the table `morx` over a text: its flags, and its subtables one after the other.
ghost use Rattle.std.specs.Prelude.{◌≡◌, ◌<◌, ◌^◌, true, OnOk, IsErrOf};
ghost use Rattle.apple_substitution.specs.ChainRuns as chain_rules;
ghost use Rattle.apple_substitution.specs.Edits.{is_past};
ghost use Rattle.apple_substitution.specs.Subtables.{source_of};
ghost use Rattle.shape_buffer.specs.declared.buffer.error.ShapeError.TheVariants.{Length};

use crate::feature_ranges::{FeatureRange, flags_of};
use crate::glyphs::Tables;
use crate::languages::Languages;
use crate::parts::{CHAIN, SUBTABLE, charge, is_end, size_of};
use crate::ranges::STEP_WORK;
use crate::subtables::{Chain, run_subtable};
use shape_buffer::{ShapeError, hb_buffer_t};
use shape_font::bytes::u32_at;
use std::alloc::Global;

/// The table `morx` over a text.
#[derive(Clone, Copy)]
pub struct Metamorphosis<'a> {
    /// What its chains read of the font.
    pub tables: Tables<'a>,
    /// The features that are asked for, in ranges of the text in their order. The last range ends
    /// with the greatest cluster.
    pub features: &'a [FeatureRange],
    /// The languages of the font, and that of the text.
    pub languages: Languages<'a>,
}

/// Runs so many subtables of a chain from a place on.
#[tactic(auto, using(crate::proofs::PartLemmas::all_made))]
fn run_subtables(
    alloc: Global,
    chain: &Chain<'_>,
    first: usize,
    count: u32,
    buffer: &mut hb_buffer_t,
) -> Result<(), ShapeError>
    requires { first < 2 ^ 37 }
    ensures ok { OnOk result (buffer.new
        ≡ chain_rules.subtables_run (source_of chain.now) first count buffer.old) }
    ensures length { IsErrOf result Length → is_past
        (chain_rules.subtables_run (source_of chain.now) first count buffer.old) ≡ true }
{
    let morx = chain.tables.morx;
    let work = STEP_WORK.saturating_add(chain.ranges.len());
    let mut at = first;
    for _i in 0..count {
        if is_end(morx, SUBTABLE, at, work, buffer) {
            return Ok(());
        }
        charge(work, buffer);
        match run_subtable(alloc, chain, at as u32, buffer) {
            Err(error) => return Err(error),
            Ok(()) => at += size_of(morx, SUBTABLE, at) as usize,
        }
    }
    Ok(())
}

/// Where the first subtable of a chain begins.
fn first_subtable(morx: &[u8], chain: usize) -> usize
    requires { chain < 2 ^ 32 }
    ensures value { result ≡ chain_rules.first_subtable morx.now chain }
    ensures near { result < 2 ^ 37 }
{
    chain + CHAIN.bytes as usize + 12 * u32_at(morx, chain + 8) as usize
}

/// Runs the subtables of the chain that begins at a place. Refuses as `run_subtable` does, and with
/// `Memory` if there is none for the chain's flags.
#[tactic(auto, unfolding(crate::specs::ChainRuns::chain_run))]
pub(crate) fn run_chain(
    alloc: Global,
    table: &Metamorphosis<'_>,
    at: u32,
    buffer: &mut hb_buffer_t,
) -> Result<(), ShapeError>
    ensures ok { OnOk result (buffer.new
        ≡ chain_rules.chain_run (chain_rules.source_of table.now) at buffer.old) }
    ensures length { IsErrOf result Length → is_past
        (chain_rules.chain_run (chain_rules.source_of table.now) at buffer.old) ≡ true }
{
    let morx = table.tables.morx;
    let flags = flags_of(alloc, morx, at, table.features, &table.languages)?;
    let chain = Chain {
        tables: table.tables,
        ranges: flags.as_slice(),
    };
    let first = first_subtable(morx, at as usize);
    let count = u32_at(morx, at as usize + 12);
    run_subtables(alloc, &chain, first, count, buffer)
}
