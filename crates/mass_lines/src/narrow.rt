// How wide fractions are.

ghost use Rattle.mass_lines.specs.Narrow.{IsNarrow};

use numbers::Frac;

/// It does nothing: the two numbers of a fraction have 128 bits, by their type.
#[tactic(auto, using(std::proofs::lemmas::Bool::Decides::nat_tests))]
pub fn is_narrow(fraction: &Frac)
    ensures { IsNarrow fraction.now }
{
    let _num = fraction.num();
    let _den = fraction.den();
}
