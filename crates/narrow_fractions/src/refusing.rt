// Why no table of narrow fractions balances.

ghost use Rattle.std.specs.Prelude.{◌≡◌, ◌<◌, ◌≤◌, ◌+◌, ◌*◌, ◌^◌, ℕ, List, [], ◌∷◌, ◌++◌};
ghost use Rattle.narrow_fractions.specs.Elimination.{Among};
ghost use Rattle.narrow_fractions.specs.Euclid.{Reached};
ghost use Rattle.narrow_fractions.specs.Moduli.{product_of, AreApart, five_primes};
ghost use Rattle.narrow_fractions.specs.Refusal.{BalancesExactly, Covers, FoundAt, FoundAtEach, HasNoNarrow, HasNoOther};
ghost use Rattle.narrow_fractions.specs.Remainders.{Same};
ghost use Rattle.narrow_fractions.specs.Rows.{merging};
ghost use Rattle.narrow_fractions.specs.WorkedLoop.{halves, visits};

/// It does nothing: its clauses say what it means that elimination modulo several numbers met no pivot without an inverse, and that
/// the number with the remainders that it found of an unknown was divided down to a bound. Where what it was multiplied by is not below
/// the bound, no table of fractions that balances has a fraction of two numbers below the bound there, and else none but the one
/// found. A loop of one state that goes on with 1/2 has such a table, and elimination modulo 7 that finds its visits, 2 (`met`).
pub fn nothing_narrow_is_left()
    ensures none { (n whole : ℕ) (parts : ℕ → ℕ → ℕ) (ks : List ℕ) (s number : ℕ) (ms : List ℕ) → Covers n ks → AreApart ms →
        FoundAtEach n whole parts ks s number ms → Among s ks → (bound high low before now : ℕ) → bound ≤ high → bound ≤ now →
        Reached (product_of ms) number high low before now → HasNoNarrow n whole parts ks s bound }
    ensures no_other { (n whole : ℕ) (parts : ℕ → ℕ → ℕ) (ks : List ℕ) (s number : ℕ) (ms : List ℕ) → Covers n ks → AreApart ms →
        FoundAtEach n whole parts ks s number ms → Among s ks → (bound high low before now : ℕ) → 2 * (bound * bound) ≤ product_of ms →
        low < bound → now < bound → Reached (product_of ms) number high low before now → HasNoOther n whole parts ks s bound low now }
    ensures met { Covers 2 (1 ∷ []) × BalancesExactly 2 2 halves (1 ∷ []) visits × FoundAt 2 2 halves (1 ∷ []) 1 2 7 }
{}

/// It does nothing: its clauses say that five primes have nothing in common, and that their product is wide enough for fractions of
/// two numbers of 128 bits.
pub fn five_primes_are_apart()
    ensures apart { AreApart five_primes }
    ensures wide { 2 * (2 ^ 128 * 2 ^ 128) ≤ product_of five_primes }
{}

/// It does nothing: its clauses say that each move of a merge of two rows, of an entry of the row, of one of the other row or of one
/// of both, keeps the parts modulo a number, in whatever order the entries stand.
pub fn rows_may_be_merged()
    ensures row { (f k p s : ℕ) (done row other : List (ℕ × ℕ)) → merging f (done ++ (k, p) ∷ []) row other s ≡ merging f done ((k, p) ∷ row) other s }
    ensures other { (m f k p q s : ℕ) (done row other : List (ℕ × ℕ)) → Same m q (f * p) →
        Same m (merging f (done ++ (k, q) ∷ []) row other s) (merging f done row ((k, p) ∷ other) s) }
    ensures both { (m f k p o q s : ℕ) (done row other : List (ℕ × ℕ)) → Same m q (o + f * p) →
        Same m (merging f (done ++ (k, q) ∷ []) row other s) (merging f done ((k, o) ∷ row) ((k, p) ∷ other) s) }
{}
