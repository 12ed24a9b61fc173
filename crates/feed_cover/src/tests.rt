ghost use Rattle.std.specs.Prelude.{◌≡◌, ◌<◌, ℕ, None, Some, slice_index_or, length, true};
ghost use Rattle.std.specs.Option.{option_map_or};
ghost use Rattle.cube_space.specs.Layout.{axes, sizes};
ghost use Rattle.rule_model.specs.Conditions.{IsArea};
ghost use Rattle.order_laws.specs.Scales.{is_leaf_element};
ghost use Rattle.cover_laws.specs.Looking.{sent};
ghost use Rattle.cover_laws.specs.Covered.{counts_in, stands_over, each_sent, are_sources};
ghost use Rattle.feed_cover.specs.Views.{look_of, IsView};
ghost use Rattle.feed_cover.specs.Tests.{IsElementOf, IsWay};

use crate::each::{each_narrow, each_sent};
use crate::reference_view::ReferenceView;
use crate::source::are_sources;
use crate::table::counts_in;
use crate::test::ElementTest;
use ref_order::axis;
use rule_laws::ElementMap;
use rule_model::{Area, Model};

/// A leaf counts in an element of a dimension of a cube.
#[derive(Clone, Copy)]
pub struct CountsIn<'a> {
    pub model: &'a Model,
    pub cube: u32,
    pub dim: usize,
    pub over: u32,
}

impl ElementTest for CountsIn<'_> {
    ghost may_ask = { λ t leaf. IsElementOf t.model.now t.cube t.dim t.over
        × IsElementOf t.model.now t.cube t.dim leaf };

    ghost passes = { λ t leaf. counts_in (axes t.model.now.space t.cube) t.dim t.over leaf };

    fn passes(&self, leaf: u32) -> bool {
        counts_in(self.model, self.cube, self.dim, self.over, leaf)
    }
}

/// An element of a dimension of a cube is one in which a leaf counts.
#[derive(Clone, Copy)]
pub struct Over<'a> {
    pub model: &'a Model,
    pub cube: u32,
    pub dim: usize,
    pub leaf: u32,
}

impl ElementTest for Over<'_> {
    ghost may_ask = { λ t over. IsElementOf t.model.now t.cube t.dim t.leaf
        × IsElementOf t.model.now t.cube t.dim over };

    ghost passes = { λ t over. counts_in (axes t.model.now.space t.cube) t.dim over t.leaf };

    fn passes(&self, over: u32) -> bool {
        counts_in(self.model, self.cube, self.dim, over, self.leaf)
    }
}

/// Each narrow element of a dimension counts in an element.
#[derive(Clone, Copy)]
pub struct StandsOver<'a> {
    pub model: &'a Model,
    pub view: ReferenceView<'a>,
    pub dim: usize,
}

impl ElementTest for StandsOver<'_> {
    ghost may_ask = { λ t over. IsView t.model.now t.view × IsElementOf t.model.now t.view.cube t.dim over };

    ghost passes = { λ t over. stands_over (look_of t.model.now t.view) t.dim over };

    fn passes(&self, over: u32) -> bool {
        let test = CountsIn {
            model: self.model,
            cube: self.view.cube,
            dim: self.dim,
            over,
        };
        each_narrow(self.model, self.view, self.dim, &test)
    }
}

/// Each leaf that counts in an element is sent to one in which each narrow element of a dimension counts.
#[derive(Clone, Copy)]
pub struct SendsOver<'a> {
    pub model: &'a Model,
    pub view: ReferenceView<'a>,
    pub dim: usize,
    pub place: usize,
    pub to: &'a ElementMap,
}

impl ElementTest for SendsOver<'_> {
    ghost may_ask = { λ t element. IsWay t.model.now t.view t.dim t.place t.to.now
        × IsElementOf t.model.now t.view.reference.now.cube t.place element };

    ghost passes = { λ t element. each_sent (axes t.model.now.space t.view.reference.now.cube) t.place t.to.now
        (stands_over (look_of t.model.now t.view) t.dim) element };

    fn passes(&self, element: u32) -> bool {
        let test = StandsOver {
            model: self.model,
            view: self.view,
            dim: self.dim,
        };
        each_sent(
            self.model,
            self.view.reference.cube,
            self.place,
            self.to,
            &test,
            element,
        )
    }
}

/// Each leaf that counts in an element is among the sources of a feeder.
#[derive(Clone, Copy)]
pub struct AreSources<'a> {
    pub model: &'a Model,
    pub cube: u32,
    pub place: usize,
    pub area: &'a Area,
}

impl ElementTest for AreSources<'_> {
    ghost may_ask = { λ t element. IsArea t.model.now.space t.cube t.area.now
        × IsElementOf t.model.now t.cube t.place element };

    ghost passes = { λ t element. are_sources (axes t.model.now.space t.cube) t.area.now.sets t.place element };

    fn passes(&self, element: u32) -> bool {
        are_sources(self.model, self.cube, self.place, self.area, element)
    }
}

/// An element is a leaf.
#[derive(Clone, Copy)]
pub struct IsLeaf<'a> {
    pub model: &'a Model,
    pub cube: u32,
    pub place: usize,
}

impl ElementTest for IsLeaf<'_> {
    ghost may_ask = { λ t element. IsElementOf t.model.now t.cube t.place element };

    ghost passes = { λ t element. is_leaf_element (axes t.model.now.space t.cube) t.place element };

    fn passes(&self, element: u32) -> bool {
        axis(self.model, self.cube, self.place).is_leaf(element)
    }
}

/// What an element is sent to passes, if it is sent anywhere.
#[derive(Clone, Copy)]
pub struct Sent<'a, T> {
    pub to: &'a ElementMap,
    pub test: &'a T,
}

impl<T: ElementTest> ElementTest for Sent<'_, T> {
    ghost may_ask = { λ t element. (target : ℕ) → sent t.to.now element ≡ Some target → T.may_ask t.test.now target };

    ghost passes = { λ t element. option_map_or (T.passes t.test.now) (sent t.to.now element) true };

    fn passes(&self, element: u32) -> bool {
        match self.to.get(element as usize) {
            Some(target) => self.test.passes(target),
            None => true,
        }
    }
}
