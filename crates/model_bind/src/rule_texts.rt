ghost use Rattle.std.specs.Prelude.{◌≡◌, ◌<◌, ◌++◌, ◌∷◌, [], length, slice_get, slice_index_or, Some};
ghost use Rattle.std.specs.Prelude.{IfOk, OnErr, OnOk};
ghost use Rattle.model_bind.specs.Rules.{asking, no_text};

use lists::ListOf;
use rule_tree::RuleText;
use std::alloc::{AllocError, Global};
use std::marker::Model;
use std::sync::Arc;

/// The texts of the cubes' rules, one a cube. Cubes that share a file share its text.
#[derive(Drop)]
pub(crate) struct RuleTexts {
    texts: Vec<Arc<RuleText, Global>>,
}

impl Model for RuleTexts {
    ghost use Rattle.std.specs.Arc.{arc_value};
    ghost use Rattle.std.specs.Coded.{codes};
    ghost use Rattle.std.specs.Prelude.{List, map};
    ghost use Rattle.rule_tree.specs.contracts.rule.RuleText as text;
    ghost use Rattle.rule_tree.specs.declared.rule.RuleText.{RuleText};

    ghost Value = { List RuleText };

    ghost coded = { Prim.hlevel (codes, text.the_row.coded) };

    ghost view = { λ texts. map arc_value texts.texts.items };
}

impl RuleTexts {
    pub(crate) fn new(alloc: Global) -> RuleTexts
        ensures { result ≡ [] }
    {
        RuleTexts {
            texts: Vec::new(alloc),
        }
    }

    /// One more cube, with this text.
    pub(crate) fn push(&mut self, alloc: Global, text: RuleText) -> Result<(), AllocError>
        ensures { OnOk result (self.new ≡ self.old ++ text ∷ []) }
    {
        self.texts.push(Arc::new(alloc, text)?)?;
        Ok(())
    }

    /// One more cube, with the text of an earlier one.
    pub(crate) fn push_shared(&mut self, earlier: usize) -> Result<(), AllocError>
        requires { earlier < length self.old }
        ensures { OnOk result (self.new ≡ self.old ++ slice_index_or self.old earlier no_text ∷ []) }
    {
        let text = Arc::try_clone(&self.texts[earlier])?;
        self.texts.push(text)?;
        Ok(())
    }

    /// How many cubes there are.
    pub(crate) fn len(&self) -> usize
        ensures { result ≡ length self.now }
    {
        self.texts.len()
    }

    /// The text of a cube.
    pub(crate) fn of_cube(&self, cube: usize) -> &RuleText
        requires { cube < length self.now }
        ensures { slice_get self.now cube ≡ Some result.now }
    {
        &self.texts[cube]
    }

    /// Which texts ask for feeders to be found.
    pub(crate) fn asking(&self, alloc: Global) -> Result<ListOf<bool>, AllocError>
        ensures { IfOk result (λ all. all ≡ asking self.now) }
    {
        let mut all = Vec::with_capacity(alloc, self.len())?;
        for cube in 0..self.len() {
            all.push(self.of_cube(cube).finds_feeders)?;
        }
        Ok(ListOf::new(all))
    }
}
