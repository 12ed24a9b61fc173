ghost use Rattle.std.specs.Prelude.{◌≡◌, ◌<◌, IsTrue, length};
ghost use Rattle.cube_space.specs.Layout.{axes};
ghost use Rattle.ref_order.specs.Reads.{precedent_of};
ghost use Rattle.read_sources.specs.Ways.{IsSource, way_of};
ghost use Rattle.read_sources.specs.Sources.{IsRead};
ghost use Rattle.read_sources.specs.Parts.{followed, IsAlike, IsShared, AreArgsAlike, AreReadsAlike, AreSetsSame};
ghost use Rattle.read_sources.specs.Parts.{DoAskAlike, DoMeanAlike};

use crate::follows::Way;
use crate::reading::set_of;
use crate::source::{Given, Source};
use crate::tables::last_of;
use crate::ways::{cube_read, way};
use ref_order::Read;
use rule_laws::Arg;
use rule_model::Model;

/// Whether a source always reads the node of one element.
pub fn is_shared(model: &Model, source: Source) -> bool
    requires { IsSource model.now source }
    ensures { IsTrue result → IsShared (way_of model.now source.entry) }
{
    matches!(way(model, source), Way::To(_))
}

/// Whether it is known at once that two sources read from the same elements of the last dimension: for the same kind of
/// cells of the same area, or of areas that have all of its elements, and the same kind of cells that are read, what
/// they read differs in the elements alone that it fixes.
pub fn serve_alike(model: &Model, one: Source, other: Source) -> bool
    requires one { IsSource model.now one }
    requires other { IsSource model.now other }
    requires read { IsRead model.now one }
    requires its { IsRead model.now other }
    ensures { IsTrue result → IsAlike model.now one.entry other.entry }
{
    if one.cube != other.cube {
        return false;
    }
    if !ask_alike(one, other) {
        return false;
    }
    if !list_alike(model, one, other, last_of(model, one.cube)) {
        return false;
    }
    read_alike(one.read, other.read)
}

// Whether two sources ask for the same, and their cells give the same elsewhere; where the cells that are read have
// kinds, these are of one cube.
fn ask_alike(one: Source, other: Source) -> bool
    ensures { IsTrue result → DoAskAlike one.entry other.entry }
{
    if one.kind != other.kind || one.asks != other.asks {
        return false;
    }
    give_alike(one.elsewhere, other.elsewhere) && mean_alike(one, other)
}

fn give_alike(one: Given, other: Given) -> bool
    ensures { IsTrue result → one ≡ other }
{
    one.own == other.own && one.its == other.its && one.both == other.both
}

// Whether two sources mean cells of the same kind, and of one cube where there are kinds.
fn mean_alike(one: Source, other: Source) -> bool
    ensures { IsTrue result → DoMeanAlike one.entry other.entry }
{
    match (one.its, other.its) {
        (None, None) => true,
        (Some(own), Some(its)) => own == its && cube_read(one) == cube_read(other),
        _ => false,
    }
}

/// Whether it is known at once that the areas of two sources of one cube have the same elements in a dimension.
pub fn list_alike(model: &Model, one: Source, other: Source, dim: usize) -> bool
    requires one { IsSource model.now one }
    requires other { IsSource model.now other }
    requires read { IsRead model.now one }
    requires its { IsRead model.now other }
    requires cube { one.cube ≡ other.cube }
    requires dim { dim < length (axes model.now.space one.cube) }
    ensures { IsTrue result → AreSetsSame dim one.entry other.entry }
{
    if one.statement == other.statement {
        return true;
    }
    match (set_of(model, one, dim), set_of(model, other, dim)) {
        (None, None) => true,
        _ => false,
    }
}

// Whether what two formulas read differs in the elements alone that it fixes.
fn read_alike(one: Read, other: Read) -> bool
    ensures { IsTrue result → AreReadsAlike (precedent_of one.entry) (precedent_of other.entry) }
{
    match (one, other) {
        (Read::Cell(one), Read::Cell(other)) => {
            args_alike(one.args.as_slice(), other.args.as_slice())
        }
        (Read::Children(one), Read::Children(other)) => one == other,
        _ => false,
    }
}

fn args_alike(one: &[Arg], other: &[Arg]) -> bool
    ensures { IsTrue result → AreArgsAlike one.now other.now }
{
    if one.len() != other.len() {
        return false;
    }
    'each: for i in 0..one.len() {
        if !arg_alike(&one[i], &other[i]) {
            return false;
        }
    }
    true
}

fn arg_alike(one: &Arg, other: &Arg) -> bool
    ensures { IsTrue result → followed one.now ≡ followed other.now }
{
    match (one, other) {
        (Arg::Fixed(_), Arg::Fixed(_)) => true,
        (Arg::Moved { from, to }, Arg::Moved { from: its, to: by }) => {
            from == its && to.is_same(by)
        }
        _ => false,
    }
}
