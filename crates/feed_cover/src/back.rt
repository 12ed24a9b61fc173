ghost use Rattle.std.specs.Prelude.{◌≡◌, ◌<◌, IfSome, not, ◌||◌, slice_index_or};
ghost use Rattle.cube_space.specs.Layout.{sizes};
ghost use Rattle.cover_laws.specs.Looking.{is_narrow, each_narrow};
ghost use Rattle.feed_cover.specs.Views.{look_of};
ghost use Rattle.feed_cover.specs.Tests.{AreOvers, IsBack, IsOneOver, is_sent_back};

use crate::each::each_sent;
use crate::narrow::is_narrow;
use crate::overs::{OneOver, Overs, no_overs, one_over, recalled, remember};
use crate::reference_view::ReferenceView;
use crate::set::{count_in, element_in};
use crate::table::{counts_in, is_shared};
use crate::tests::Over;
use rule_laws::ElementMap;
use rule_model::Model;

/// A dimension of the cube that is looked from, the map by which the argument at a place of the reference follows it,
/// and a feeder's map from there back to it.
#[derive(Clone, Copy)]
pub struct Back<'a> {
    pub model: &'a Model,
    pub view: ReferenceView<'a>,
    pub dim: usize,
    pub place: usize,
    pub to: &'a ElementMap,
    pub by: &'a ElementMap,
}

/// Whether each leaf that counts in what a narrow element is sent to is sent back to one over the element. Where both
/// maps keep the elements of one dimension, that is the element itself.
pub fn reaches_back(back: Back) -> bool
    requires back { IsBack back }
    ensures { result ≡ each_narrow (look_of back.entry.model.now back.entry.view) back.entry.dim
        (is_sent_back back.entry) }
{
    let Back {
        model,
        view,
        dim,
        place,
        to,
        by,
    } = back;
    let there = by.is_identity();
    let home = to.is_identity();
    if there && home && is_shared(model, view.cube, dim, view.reference.cube, place) {
        return true;
    }
    each_back(back)
}

// The same, element by element.
fn each_back(back: Back) -> bool
    requires back { IsBack back }
    ensures { result ≡ each_narrow (look_of back.entry.model.now back.entry.view) back.entry.dim
        (is_sent_back back.entry) }
{
    let mut overs = no_overs();
    'each: for k in 0..count_in(back.model, back.view, back.dim) {
        let element = element_in(back.model, back.view, back.dim, k);
        if !is_back(back, &mut overs, element) {
            return false;
        }
    }
    true
}

// Whether an element isn't narrow, or is sent back to one over it.
fn is_back(back: Back, overs: &mut Overs, element: u32) -> bool
    requires back { IsBack back }
    requires element { element < slice_index_or (sizes back.model.now.space back.view.cube) back.dim 0 }
    requires overs { AreOvers back.model.now back.view back.dim back.place back.to.now overs.old }
    ensures is { result ≡ (not (is_narrow (look_of back.entry.model.now back.entry.view) back.entry.dim element)
        || is_sent_back back.entry element) }
    ensures overs { AreOvers back.entry.model.now back.entry.view back.entry.dim back.entry.place back.entry.to.now
        overs.new }
{
    if !is_narrow(back.model, back.view, back.dim, element) {
        return true;
    }
    sends_back(back, overs, element)
}

// Whether each leaf that counts in what an element is sent to is sent to one in which the element itself counts.
fn sends_back(back: Back, overs: &mut Overs, element: u32) -> bool
    requires back { IsBack back }
    requires element { element < slice_index_or (sizes back.model.now.space back.view.cube) back.dim 0 }
    requires overs { AreOvers back.model.now back.view back.dim back.place back.to.now overs.old }
    ensures sends { result ≡ is_sent_back back.entry element }
    ensures overs { AreOvers back.entry.model.now back.entry.view back.entry.dim back.entry.place back.entry.to.now
        overs.new }
{
    let Some(target) = back.by.get(element as usize) else {
        return true;
    };
    match over_of(back, overs, target) {
        Some(over) => counts_in(back.model, back.view.cube, back.dim, over, element),
        None => {
            let test = Over {
                model: back.model,
                cube: back.view.cube,
                dim: back.dim,
                leaf: element,
            };
            each_sent(
                back.model,
                back.view.reference.cube,
                back.place,
                back.to,
                &test,
                target,
            )
        }
    }
}

// The one element to which each leaf that counts in a target is sent, if there are leaves, and one such element.
fn over_of(back: Back, overs: &mut Overs, target: u32) -> Option<u32>
    requires back { IsBack back }
    requires target { target < slice_index_or (sizes back.model.now.space back.view.reference.now.cube) back.place 0 }
    requires overs { AreOvers back.model.now back.view back.dim back.place back.to.now overs.old }
    ensures one { IfSome result (IsOneOver back.entry.model.now back.entry.view back.entry.dim back.entry.place
        back.entry.to.now target) }
    ensures overs { AreOvers back.entry.model.now back.entry.view back.entry.dim back.entry.place back.entry.to.now
        overs.new }
{
    if let Some(known) = recalled(overs, target) {
        return Some(known.over);
    }
    let over = one_over(
        back.model,
        back.view.reference.cube,
        back.place,
        back.to,
        target,
    )?;
    remember(overs, OneOver { target, over });
    Some(over)
}
