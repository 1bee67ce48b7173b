//! Clusters of two configurations, place by place, where it is known of those without a mark that they are the same.
ghost use Rattle.std.specs.Prelude.{◌≡◌, ◌<◌, ◌↔◌, true, length, map, slice_get, IsTrue};
ghost use Rattle.config_compare.specs.MarkedClusters.{AgreeAt, AreNamedAlikeAt, AreSameBut, IsNamedAlikeAt};

use place_marks::Marks;
use xc_base::Same;
use xds_config::Clusters;

/// Whether the same entry stands at a place of two configurations, which both have it.
fn is_same_at(clusters: &Clusters, others: &Clusters, place: usize) -> bool
    requires here { place < length clusters.now }
    requires there { place < length others.now }
    ensures { IsTrue result ↔ (slice_get clusters.now place ≡ slice_get others.now place) }
{
    let entry = clusters.as_blocks().at(place).get();
    entry.same(others.as_blocks().at(place).get())
}

/// Whether the same entries stand at the marked places of two configurations.
fn agree_at(clusters: &Clusters, others: &Clusters, marks: &Marks) -> bool
    requires here { length marks.now ≡ length clusters.now }
    requires there { length marks.now ≡ length others.now }
    ensures { IsTrue result ↔ AgreeAt marks.now clusters.now others.now }
{
    let places = marks.places();
    for place in places {
        if !is_same_at(clusters, others, *place as usize) {
            return false;
        }
    }
    true
}

/// Whether two configurations have the same entries, where those without a mark are the same, if both have them. The others
/// alone are compared.
pub fn are_same_clusters(clusters: &Clusters, others: &Clusters, marks: &Marks) -> bool
    requires count { length marks.now ≡ length others.now }
    requires unmarked { AreSameBut marks.now clusters.now others.now }
    ensures { IsTrue result ↔ (clusters.now ≡ others.now) }
{
    if clusters.len() != others.len() {
        return false;
    }
    agree_at(clusters, others, marks)
}

/// Whether clusters of the same name stand at a place of two configurations, which both have it.
fn is_named_alike_at(clusters: &Clusters, others: &Clusters, place: usize) -> bool
    requires here { place < length clusters.now }
    requires there { place < length others.now }
    ensures { result ≡ true → IsNamedAlikeAt clusters.now others.now place }
{
    let entry = clusters.as_blocks().at(place).get();
    entry.name.same(&others.as_blocks().at(place).get().name)
}

/// Whether clusters of the same names stand at the marked places of two configurations.
fn are_named_alike_at(clusters: &Clusters, others: &Clusters, marks: &Marks) -> bool
    requires here { length marks.now ≡ length clusters.now }
    requires there { length marks.now ≡ length others.now }
    ensures { result ≡ true → AreNamedAlikeAt marks.now clusters.now others.now }
{
    let places = marks.places();
    for place in places {
        if !is_named_alike_at(clusters, others, *place as usize) {
            return false;
        }
    }
    true
}

/// Whether two configurations have clusters of the same names, place by place, where entries without a mark are the same, if both
/// have them. The names of the others alone are compared.
pub fn have_same_names(clusters: &Clusters, others: &Clusters, marks: &Marks) -> bool
    requires count { length marks.now ≡ length others.now }
    requires unmarked { AreSameBut marks.now clusters.now others.now }
    ensures { result ≡ true → map (λ e. e.name) clusters.now ≡ map (λ e. e.name) others.now }
{
    if clusters.len() != others.len() {
        return false;
    }
    are_named_alike_at(clusters, others, marks)
}
