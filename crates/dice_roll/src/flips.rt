//! What a flip makes of a roll.
ghost use Rattle.std.specs.Prelude.{◌≡◌, ◌+◌, ◌<◌, ℕ, suc, Bool, List, [], ◌∷◌, IfSome, IfNone};
ghost use Rattle.dice_roll.specs.declared.answers.Roll.{Roll};
ghost use Rattle.dice_roll.specs.declared.answers.Roll.TheVariants.{Limit, MoreBits};
ghost use Rattle.dice_roll.specs.FastRoll.{label_or};

/// A roll that is under way: the bits that were read so far lead to no label.
pub trait Flips {
    /// What is rolled from here: with at most so many more flips, after so many, on these bits.
    ghost rolls: { Self → ℕ → ℕ → List Bool → Roll };

    /// How many labels there are.
    ghost labels: { Self → ℕ };

    /// It may stand here after so many flips.
    ghost Stands: { Self → ℕ → Type 0 };

    /// Goes on by the bit of one more flip, after `read` of them, and answers the label that it comes to, where it comes to one. After that
    /// nothing is promised of what is rolled from here.
    fn flip(&mut self, read: u64, bit: bool) -> Option<u64>
        requires { Stands self.old read }
        ensures rolled { (h : ℕ) (rest : List Bool)
            → rolls self.old (suc h) read (bit ∷ rest) ≡ label_or result (read + 1) (rolls self.new h (read + 1) rest) }
        ensures within { IfSome result (λ label. label < labels self.old) }
        ensures stands { IfNone result (Stands self.new (read + 1)) }
        ensures same_labels { labels self.new ≡ labels self.old };

    ghost no_flip_left: { (here : Self) (n : ℕ) (bits : List Bool) → rolls here 0 n bits ≡ Limit n };

    ghost no_bit_left: { (here : Self) (h n : ℕ) → rolls here (suc h) n [] ≡ MoreBits n };
}
