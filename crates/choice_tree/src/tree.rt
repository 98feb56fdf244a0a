// Choice-fix trees.

ghost use Rattle.std.specs.Prelude.{◌≡◌, ◌<◌, Some};
ghost use Rattle.choice_tree.specs.TreeRows.{count, tree_at};
ghost use Rattle.choice_tree.specs.Views.{choice_tree_of, choice_trees_of};

use crate::parts::Parts;
use gcl_core::{Expr, Weight};

/// Trees in order.
#[derive(Drop)]
#[cycle(tree)]
pub struct CfRow {
    pub members: Vec<Cf>,
}

/// A tree. The number before an expression is that of the variable which is set.
#[derive(Drop)]
#[cycle(tree)]
pub enum Cf {
    /// The round fails.
    Fail,
    Set(u32, Expr),
    /// The first tree where the value is not 0, else the second.
    Test(Expr, Box<Cf>, Box<Cf>),
    /// The first tree with this weight, else the second.
    Choice(Weight, Box<Cf>, Box<Cf>),
    /// The arm whose class the draw gives: each with its part over the sum of the parts.
    Choose(Parts, CfRow),
    /// A number from 0 up to the bound, which the expression gives, each with the same weight.
    Uniform(u32, Expr),
    /// One tree after the other. An empty row does nothing.
    Row(CfRow),
    /// The tree again and again, while the value is not 0.
    Fix(Expr, Box<Cf>),
}

impl CfRow {
    /// How many trees the row has.
    pub fn count(&self) -> usize
        ensures { result ≡ count (choice_trees_of self.now) }
    {
        self.members.len()
    }

    /// The tree at a place, counted from 0.
    pub fn get(&self, i: usize) -> &Cf
        requires { i < count (choice_trees_of self.now) }
        ensures { tree_at (choice_trees_of self.now) i ≡ Some (choice_tree_of result.now) }
    {
        &self.members[i]
    }
}
