ghost use Rattle.std.specs.Prelude.{◌≡◌, IsTrue};
ghost use Rattle.read_sources.specs.Ways.{IsSource, follows_of};
ghost use Rattle.read_sources.specs.Sources.{IsRead};
ghost use Rattle.read_sources.specs.Parts.{MakesArrowsOf};

use crate::alike::{list_alike, serve_alike};
use crate::follows::Way;
use crate::seek::found_in;
use crate::source::Source;
use crate::ways::{cube_read, way};
use rule_model::Model;

/// Whether it is known at once that a source makes each arrow that another one makes: both read from the same elements,
/// and what they read follows in the same way.
pub fn makes_arrows_of(model: &Model, one: Source, other: Source) -> bool
    requires one { IsSource model.now one }
    requires other { IsSource model.now other }
    requires read { IsRead model.now one }
    requires its { IsRead model.now other }
    ensures { IsTrue result → MakesArrowsOf model.now one.entry other.entry }
{
    let _space = model.space();
    if one.weak != other.weak || cube_read(one) != cube_read(other) {
        return false;
    }
    if !serve_alike(model, one, other) {
        return false;
    }
    if !list_alike(model, one, other, found_in(model, one)) {
        return false;
    }
    same_way(way(model, one), way(model, other))
}

// Whether it is known at once that two nodes that are read follow in the same way.
fn same_way(one: Way, other: Way) -> bool
    ensures { IsTrue result → follows_of one.entry ≡ follows_of other.entry }
{
    match (one, other) {
        (Way::Itself, Way::Itself) => true,
        (Way::Parts, Way::Parts) => true,
        (Way::To(target), Way::To(its)) => target == its,
        (Way::By(map), Way::By(its)) => map.is_same(its),
        (Way::Over(dim, map), Way::Over(its, by)) => dim == its && map.is_same(by),
        _ => false,
    }
}
