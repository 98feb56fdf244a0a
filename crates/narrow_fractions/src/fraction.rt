// The narrow fraction with a remainder, by Euclid's algorithm.

ghost use Rattle.std.specs.Prelude.{◌≡◌, ◌+◌, ◌*◌, ◌≤◌, ◌<◌, ℕ, IfSome, IsNone};
ghost use Rattle.narrow_fractions.specs.Euclid.{FromAbove, FromBelow, IsNarrow};
ghost use Rattle.narrow_fractions.specs.Remainders.{Same};

/// The fraction of two numbers below a bound with the remainder `n` modulo `m`, by Euclid's algorithm; or none, where there is none.
pub fn narrow_fraction(m: u128, n: u128, bound: u128) -> Option<(u128, u128)>
    requires remainder { n < m }
    requires positive { 1 ≤ bound }
    requires wide { 2 * (bound * bound) ≤ m }
    ensures narrow { IfSome result (λ f. IsNarrow m n bound f.0 f.1) }
    ensures one { IfSome result (λ f. (num den : ℕ) → IsNarrow m n bound num den → den * f.0 ≡ f.1 * num) }
    ensures none { IsNone result → (num den : ℕ) → IsNarrow m n bound num den → ⊥ }
{
    let mut high = m;
    let mut low = n;
    let mut before = 0u128;
    let mut now = 1u128;
    let mut above = true;
    while bound <= low {
        let next = before + high / low * now;
        let rest = high % low;
        high = low;
        low = rest;
        before = now;
        now = next;
        above = !above;
    }
    if bound <= now {
        return None;
    }
    if above {
        return Some((low, now));
    }
    if low != 0 {
        return None;
    }
    Some((0, now))
}

/// It does nothing: its clauses say that two remainders of Euclid's algorithm may be given, and checked by what they are modulo the
/// number, without the steps to them.
pub fn remainders_may_be_given()
    ensures above { (m n high low before now : ℕ) → low < m → 1 ≤ high → 1 ≤ now → high * now + low * before < 2 * m →
        Same m (now * n) low → Same m (before * n + high) 0 → FromAbove m n high low before now }
    ensures below { (m n high low before now : ℕ) → high < m → 1 ≤ high → 1 ≤ now → high * now + low * before < 2 * m →
        Same m (now * n + low) 0 → Same m (before * n) high → FromBelow m n high low before now }
{}

/// It does nothing: its clause says that at most one fraction of two numbers below a bound has a remainder, where the square of the
/// bound is at most the modulus.
pub fn one_fraction_has_a_remainder()
    ensures { (m n bound num den num' den' : ℕ) → bound * bound ≤ m → IsNarrow m n bound num den →
        IsNarrow m n bound num' den' → den * num' ≡ den' * num }
{}
