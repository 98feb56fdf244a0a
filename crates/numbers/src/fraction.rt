// Exact fractions of two numbers of 128 bits, in lowest terms.

ghost use Rattle.std.specs.Prelude.{◌≡◌, ◌≤◌, ◌*◌, IfSome};
ghost use Rattle.numbers.specs.Divisor.{gcd};
ghost use Rattle.numbers.specs.Fraction.{IsEqual, lowest};
ghost use Rattle.numbers.specs.Arithmetic.{InLowest, common_of, if_fits, sum_of, difference_of, product_of, quotient_of, order_of};

use crate::divisor::gcd;
use std::cmp::Ordering;
use std::marker::Model;

/// A fraction in lowest terms, numerator and denominator at most 2^128 − 1 each.
///
/// A contract sees it as the pair of its numerator and its denominator.
#[derive(Clone, Copy, Debug, PartialEq, Eq, Hash)]
pub struct Frac {
    num: u128,
    den: u128,
}

impl Model for Frac {
    ghost use Rattle.std.specs.Prelude.{ℕ};

    ghost Value = { ℕ × ℕ };

    ghost use Rattle.numbers.specs.Arithmetic.{InLowest};

    ghost view = { λ f. (f.num, f.den) };

    ghost invariant = { λ f. InLowest (f.num, f.den) };

    ghost inverse = { λ p. record { num = p.0; den = p.1 } };
}

/// The least common multiple of the denominators, and both numerators over it.
#[tactic(auto, using(crate::proofs::Terms::common_result, std::proofs::lemmas::Bool::Decides::nat_tests))]
fn over_common(num: u128, den: u128, o_num: u128, o_den: u128) -> Option<(u128, u128, u128)>
    requires first { 1 ≤ den }
    requires second { 1 ≤ o_den }
    ensures value { result ≡ common_of (num, den) (o_num, o_den) }
    ensures positive { IfSome result (λ t. 1 ≤ t.0) }
{
    let shared = gcd(den, o_den);
    let multiple = den.checked_mul(o_den / shared)?;
    let left = num.checked_mul(o_den / shared)?;
    let right = o_num.checked_mul(den / shared)?;
    Some((multiple, left, right))
}

/// The product in lowest terms. Each numerator is reduced with the other's denominator first, so that what is multiplied is no
/// wider than the answer.
#[tactic(auto, using(crate::proofs::Terms::product_result, crate::proofs::Terms::product_lowest, std::proofs::lemmas::Bool::Decides::nat_tests))]
fn reduced_product(num: u128, den: u128, o_num: u128, o_den: u128) -> Option<(u128, u128)>
    requires first { InLowest (num, den) }
    requires second { InLowest (o_num, o_den) }
    ensures value { result ≡ if_fits (lowest (num * o_num, den * o_den)) }
    ensures lowest { IfSome result InLowest }
{
    let left = gcd(num, o_den);
    let right = gcd(o_num, den);
    let top = (num / left).checked_mul(o_num / right)?;
    let bottom = (den / right).checked_mul(o_den / left)?;
    Some((top, bottom))
}

impl Frac {
    /// `num` over `den`, in lowest terms.
    #[tactic(auto, using(crate::proofs::Terms::lowest_by))]
    pub fn of(num: u128, den: u128) -> Frac
        requires { 1 ≤ den }
        ensures value { result ≡ lowest (num, den) }
        ensures equal { IsEqual result (num, den) }
        ensures lowest { InLowest result }
    {
        let shared = gcd(num, den);
        Frac {
            num: num / shared,
            den: den / shared,
        }
    }

    /// The numerator in lowest terms.
    pub fn num(&self) -> u128
        ensures value { result ≡ self.now.0 }
        ensures lowest { InLowest self.now }
    {
        self.num
    }

    /// The denominator in lowest terms, at least 1.
    pub fn den(&self) -> u128
        ensures value { result ≡ self.now.1 }
        ensures lowest { InLowest self.now }
    {
        self.den
    }

    /// It does nothing: what every fraction keeps, for a proof that has lost it.
    #[inline(always)]
    pub fn is_lowest(&self)
        ensures { InLowest self.now }
    {
        let _ = &self.num;
    }

    /// The sum. `None` exactly where the least common multiple of the denominators, one of the two numerators over it, or their
    /// sum is above 2^128 − 1.
    pub fn add(&self, o: &Frac) -> Option<Frac>
        ensures { result ≡ sum_of self.now o.now }
    {
        let (den, left, right) = over_common(self.num(), self.den(), o.num(), o.den())?;
        let num = left.checked_add(right)?;
        Some(Frac::of(num, den))
    }

    /// The difference. `None` exactly where it is below 0, or the least common multiple of the denominators or one of the two
    /// numerators over it is above 2^128 − 1. Only tests and users of the crate call it.
    pub fn sub(&self, o: &Frac) -> Option<Frac>
        ensures { result ≡ difference_of self.now o.now }
    {
        let (den, left, right) = over_common(self.num(), self.den(), o.num(), o.den())?;
        let num = left.checked_sub(right)?;
        Some(Frac::of(num, den))
    }

    /// The product. `None` exactly where a part of its lowest terms is above 2^128 − 1.
    #[tactic(auto, using(crate::proofs::Terms::lowest_at))]
    pub fn mul(&self, o: &Frac) -> Option<Frac>
        ensures { result ≡ product_of self.now o.now }
    {
        let (num, den) = reduced_product(self.num(), self.den(), o.num(), o.den())?;
        Some(Frac { num, den })
    }

    /// The quotient. `None` exactly where `o` is 0, or a part of the quotient's lowest terms is above 2^128 − 1.
    #[tactic(auto, using(crate::proofs::Terms::lowest_at, crate::proofs::Terms::lowest_turned))]
    pub fn div(&self, o: &Frac) -> Option<Frac>
        ensures { result ≡ quotient_of self.now o.now }
    {
        if o.num() == 0 {
            return None;
        }
        let (num, den) = reduced_product(self.num(), self.den(), o.den(), o.num())?;
        Some(Frac { num, den })
    }

    /// How the values compare. The crosswise products are compared in 256 bits, so that there is always an answer.
    pub fn compare(&self, o: &Frac) -> Ordering
        ensures { result ≡ order_of self.now o.now }
    {
        let (low, high) = self.num.carrying_mul(o.den, 0);
        let (o_low, o_high) = o.num.carrying_mul(self.den, 0);
        if high == o_high {
            low.cmp(&o_low)
        } else {
            high.cmp(&o_high)
        }
    }
}
