//! The runs of a text: the longest pieces of whole clusters that agree in what decides a run.
ghost use Rattle.std.specs.Prelude.{◌≡◌, ◌≤◌, [], length, All, IfOk, OnOk};
ghost use Rattle.text_items.specs.Scripts;
ghost use Rattle.text_items.specs.Items;
ghost use Rattle.text_items.specs.Laws.{Covers, BeginsCluster, AreApart};

use crate::clusters::{Cluster, Properties, clusters};
use crate::ranges::NumberedRange;
use crate::scripts::{Context, first_script};
use std::alloc::{AllocError, Global};

/// A run of a text.
#[derive(Clone, Copy, Debug)]
pub struct Item {
    /// Where it begins, in bytes.
    pub start: usize,
    /// Where it ends, in bytes.
    pub end: usize,
    /// What all of its text has in common.
    pub properties: Properties,
}

/// What the caller knows of a text. By default no list says anything.
#[derive(Clone, Copy, Debug)]
pub struct ItemOptions<'a> {
    /// The embedding level of each character, as `bidi::text_levels` gives them; those past the end
    /// of the list have the level 0.
    pub levels: &'a [u8],
    /// The languages of parts of the text, by numbers of the caller's own choice; what no range has
    /// in it has the number 0. The ranges don't overlap, and each begins after those before it.
    pub languages: &'a [NumberedRange],
    /// The features of parts of the text, in the same way.
    pub features: &'a [NumberedRange],
}

impl ItemOptions<'_> {
    /// Nothing is known: all of the text is of level 0, of no language and of no features.
    pub fn new() -> ItemOptions<'static>
        ensures levels { result.levels.now ≡ [] }
        ensures languages { result.languages.now ≡ [] }
        ensures features { result.features.now ≡ [] }
    {
        ItemOptions {
            levels: &[],
            languages: &[],
            features: &[],
        }
    }
}

/// Whether two runs agree in what decides a run.
fn is_same(properties: &Properties, other: &Properties) -> bool
    ensures { result ≡ Items.is_same properties.now other.now }
{
    properties.script.number() == other.script.number()
        && properties.level == other.level
        && properties.presentation.number() == other.presentation.number()
        && properties.language == other.language
        && properties.features == other.features
}

/// A run of one cluster, which has the script of the text around it.
fn single(context: &mut Context, cluster: &Cluster) -> Result<Item, AllocError>
    ensures item { IfOk result (λ item. item ≡ Items.single cluster.now context.new) }
    ensures context { OnOk result (context.new ≡ Scripts.stepped cluster.now context.old) }
{
    context.step(cluster)?;
    Ok(Item {
        start: cluster.start,
        end: cluster.end,
        properties: Properties {
            script: context.script(),
            level: cluster.level,
            presentation: cluster.presentation,
            language: cluster.language,
            features: cluster.features,
        },
    })
}

/// The runs of clusters.
fn joined(alloc: Global, clusters: &[Cluster]) -> Result<Vec<Item>, AllocError>
    ensures { IfOk result (λ items. items.items ≡ Items.joined (Items.singles clusters.now)) }
{
    let mut items = Vec::new(alloc);
    let Some((first, rest)) = clusters.split_first() else {
        return Ok(items);
    };
    let mut context = Context::new(alloc, first_script(clusters));
    let mut item = single(&mut context, first)?;
    for cluster in rest {
        let next = single(&mut context, cluster)?;
        if is_same(&item.properties, &next.properties) {
            item.end = next.end;
        } else {
            items.push(item)?;
            item = next;
        }
    }
    items.push(item)?;
    Ok(items)
}

/// The runs of a text, in its order: the longest pieces of whole grapheme clusters that agree in
/// all of their [`Properties`]. A Common or Inherited cluster has the script of the text before it;
/// brackets and quotation marks that pair have one script; an emoji sequence is never cut. Takes
/// time in step with the text, and refuses if memory runs out.
pub fn text_items(alloc: Global, text: &str, options: &ItemOptions) -> Result<Vec<Item>, AllocError>
    ensures items { IfOk result (λ items. items.items ≡ Items.items_of options.now.levels.now
        options.now.languages.now options.now.features.now text.now) }
    ensures cover { IfOk result (λ items. Covers 0 items.items (length text.now)) }
    ensures clusters { IfOk result (λ items. All (BeginsCluster text.now) items.items) }
    ensures longest { IfOk result (λ items. AreApart items.items) }
{
    let items = items_in(alloc, text, options)?;
    Ok(items)
}

/// The runs themselves.
fn items_in(alloc: Global, text: &str, options: &ItemOptions) -> Result<Vec<Item>, AllocError>
    ensures { IfOk result (λ items. items.items ≡ Items.items_of options.now.levels.now
        options.now.languages.now options.now.features.now text.now) }
{
    let clusters = clusters(alloc, text, options)?;
    joined(alloc, &clusters)
}
