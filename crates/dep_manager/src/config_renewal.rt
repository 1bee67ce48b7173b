//! A configuration once endpoints changed: what they don't touch is the same shared value as before.
ghost use Rattle.std.specs.Prelude.{◌≡◌, IfOk, map};
ghost use Rattle.std.specs.List.{list_any};
ghost use Rattle.dep_manager.specs.EndpointNews.{is_told};
ghost use Rattle.dep_manager.specs.RenewedConfigs.{renewed_config, renewed_entries, renewed_marks};

use crate::block_renewal::renewed_blocks;
use crate::endpoint_news::{News, NewsReader};
use crate::leaf_sources::LeafSources;
use crate::mark_sets::MarkSet;
use place_marks::Marks;
use std::alloc::Global;
use xc_base::{Memory, Reason, Shared};
use xds_config::{Clusters, Config, Front};

/// The same front, or the same reason.
fn copy_front(front: &Result<Front, Reason>) -> Result<Result<Front, Reason>, Memory>
    ensures { IfOk result (λ copy. copy ≡ front.now) }
{
    match front {
        Ok(front) => Ok(Ok(front.clone()?)),
        Err(reason) => Ok(Err(*reason)),
    }
}

/// For each of these clusters, whether any of its leaves has its endpoints from a key that changed. Each of these keys is looked
/// up once.
fn told_marks(alloc: Global, news: &News, sources: &LeafSources) -> Result<MarkSet, Memory>
    ensures { IfOk result (λ told. told ≡ map (list_any (is_told news.now)) sources.now) }
{
    let mut told = MarkSet::none(alloc, sources.len());
    let mut near = 0;
    for place in 0..news.len() {
        let places = sources.places_of(news.key(place), &mut near);
        let more = told.with(places)?;
        told = more;
    }
    Ok(told)
}

/// The clusters once endpoints changed, where it is known of which any leaf has its endpoints from a key that did.
fn renewed_clusters(
    alloc: Global,
    news: &News,
    clusters: &Clusters,
    sources: &LeafSources,
    told: &Marks,
) -> Result<Clusters, Memory>
    requires { told.now ≡ map (list_any (is_told news.now)) sources.now }
    ensures { IfOk result (λ new. new ≡ renewed_entries news.now clusters.now sources.now) }
{
    let before = clusters.as_blocks();
    let mut reader = NewsReader::of(news);
    let blocks = renewed_blocks(
        alloc,
        &mut reader,
        before,
        sources.as_slice(),
        told.places(),
    )?;
    Ok(clusters.renewed(blocks))
}

/// A configuration once endpoints changed, and which of its entries may be other ones than at a time before.
#[derive(Drop)]
pub struct Renewed {
    /// The configuration.
    pub config: Shared<Config>,
    /// A mark for each of its clusters, which is set where its entry may be another one.
    pub others: MarkSet,
}

/// A configuration whose leaves have their endpoints from these keys, once some changed. Where none of its leaves has one that
/// changed, it is the same, and so is each entry. The marks tell which entries may already be other ones than at a time before;
/// those that are renewed are marked too.
pub fn renewed_config(
    alloc: Global,
    news: &News,
    config: Shared<Config>,
    sources: &LeafSources,
    others: MarkSet,
) -> Result<Renewed, Memory>
    ensures config { IfOk result (λ new. new.config ≡ renewed_config news.now config sources.now) }
    ensures others { IfOk result (λ new. new.others ≡ renewed_marks news.now others sources.now) }
{
    if news.is_empty() {
        return Ok(Renewed { config, others });
    }
    let gathered = told_marks(alloc, news, sources)?;
    let told = gathered.into_marks(alloc)?;
    if told.are_none() {
        return Ok(Renewed { config, others });
    }
    let front = copy_front(&config.get().front)?;
    let clusters = renewed_clusters(alloc, news, &config.get().clusters, sources, &told)?;
    let config = Shared::new(alloc, Config { front, clusters })?;
    let others = others.joined(sources.len(), &told)?;
    Ok(Renewed { config, others })
}
