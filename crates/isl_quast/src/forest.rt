//! Trees of spaces.

ghost use Rattle.std.specs.Prelude.{◌≡◌};
ghost use Rattle.isl_space.specs.Space.{space_form_of};
ghost use Rattle.isl_space.specs.SpaceForm.{IsNarrowSpace};

use crate::Quast;
use isl_space::{Params, Space};
use std::marker::Model;

/// A space, and the tree of what stands in it.
#[derive(Drop)]
pub struct SpaceTree {
    space: Space,
    tree: Quast,
}

impl Model for SpaceTree {
    ghost use Rattle.isl_space.specs.Space.{space_form_of};
    ghost use Rattle.isl_space.specs.SpaceForm.{IsNarrowSpace};
    ghost use Rattle.isl_quast.specs.ForestText as forests;

    ghost Value = { forests.SpaceTree };

    ghost use Rattle.isl_quast.specs.Stored.{space_tree_code};

    ghost coded = { space_tree_code };

    ghost view = { λ s. record { space = space_form_of s.space; tree = s.tree } };

    ghost invariant = { λ s. IsNarrowSpace (space_form_of s.space) };
}

impl SpaceTree {
    pub fn new(space: Space, tree: Quast) -> SpaceTree
        requires { IsNarrowSpace (space_form_of space) }
        ensures { result ≡ record { space = space_form_of space; tree = tree } }
    {
        SpaceTree { space, tree }
    }

    pub fn space(&self) -> &Space
        ensures content { space_form_of result.now ≡ self.now.space }
        ensures narrow { IsNarrowSpace self.now.space }
    {
        &self.space
    }

    pub fn tree(&self) -> &Quast
        ensures { result.now ≡ self.now.tree }
    {
        &self.tree
    }
}

/// Declared names, and trees of spaces.
#[derive(Drop)]
pub struct Forest {
    params: Params,
    trees: Vec<SpaceTree>,
}

impl Model for Forest {
    ghost use Rattle.isl_quast.specs.ForestText.{ForestView};

    ghost Value = { ForestView };

    ghost use Rattle.isl_quast.specs.Stored.{forest_code};

    ghost coded = { forest_code };

    ghost view = { λ f. record { params = f.params; trees = f.trees.items } };
}

impl Forest {
    pub fn new(params: Params, trees: Vec<SpaceTree>) -> Forest
        ensures { result ≡ record { params = params; trees = trees.items } }
    {
        Forest { params, trees }
    }

    /// The declared names.
    pub fn params(&self) -> &Params
        ensures { result.now ≡ self.now.params }
    {
        &self.params
    }

    pub fn trees(&self) -> &[SpaceTree]
        ensures { result.now ≡ self.now.trees }
    {
        self.trees.as_slice()
    }
}
