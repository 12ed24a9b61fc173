//! Laws of the versions of model texts: in version 2 a text may say more than in version 1, and what it says in version
//! 1 means the same in version 2.
//!
//! The laws are contracts of functions that do nothing. `specs/Binding.antt` says what model texts bind to, and
//! `specs/Versions.antt` what a text is in another version.
#![tactic(auto)]

ghost use Rattle.std.specs.Prelude.{◌≡◌, ℕ, Option, Some};
ghost use Rattle.cube_space.specs.Layout.{Layout};
ghost use Rattle.model_text.specs.Contents.{Contents, IsContents};
ghost use Rattle.model_text.specs.declared.order.OrderLine.{OrderLine};
ghost use Rattle.rule_model.specs.BoundModel.{BoundModel};
ghost use Rattle.rule_model.specs.declared.order.Order.{Order};
ghost use Rattle.rule_model.specs.declared.rules.CubeRules.{CubeRules};
ghost use Rattle.bind_order.specs.Orders.{order_of};
ghost use Rattle.model_format_laws.specs.Binding.{model_bound};
ghost use Rattle.model_format_laws.specs.Versions.{line_in, contents_in, rest_spelled};

/// A model text of version 1 that binds to a model, with what the rule texts of its cubes mean, binds to the same model
/// in version 2. What holds of the contents of every text that is read is a premise.
pub fn a_bound_text_binds_the_same_in_version_2()
    ensures { (contents : Contents) (meant : Layout → ℕ → Option CubeRules) (model : BoundModel)
        → IsContents contents
        → contents.version ≡ 1 → model_bound meant contents ≡ Some model
        → model_bound meant (contents_in 2 contents) ≡ Some model }
{}

/// An order line of version 1 that means an order of a cube means the same in version 2.
pub fn order_lines_stand_for_the_same_in_version_2()
    ensures { (space : Layout) (cube : ℕ) (line : OrderLine) (order : Order) → line.version ≡ 1
        → order_of space cube line ≡ Some order → order_of space cube (line_in 2 line) ≡ Some order }
{}

/// A text in another version is written with another number behind `MODEL`, and otherwise the same.
pub fn texts_of_two_versions_differ_in_their_opening()
    ensures { (contents : Contents) (version : ℕ) → rest_spelled (contents_in version contents)
        ≡ rest_spelled contents }
{}
