// Leaves of draws.

ghost use Rattle.std.specs.Prelude.{◌≡◌, ◌<◌, ◌^◌, IfSome};
ghost use Rattle.draw_tree.specs.Flips.{leaf};
ghost use Rattle.draw_tree.specs.Views.{flips_of};

use crate::tree::Draw;

// The leaf of a class; for no class, the one at which the draw is made again.
pub(crate) fn leaf_of(class: Option<usize>) -> Draw
    requires { IfSome class (λ i. i < 2 ^ 32) }
    ensures { flips_of result ≡ leaf class }
{
    match class {
        Some(class) => Draw::Label(class as u32),
        None => Draw::Again,
    }
}
