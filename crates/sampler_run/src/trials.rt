// Attempts of a draw below a bound, on the bits at hand and over plain values.

ghost use Rattle.std.specs.Prelude.{◌≡◌, ◌+◌, ◌-◌, ◌*◌, ◌/◌, ◌%◌, ◌^◌, ◌<◌, ◌≤◌, nat_lt};
ghost use Rattle.gcl_core.specs.meaning.Draw.{bits_for};
ghost use Rattle.gcl_core.specs.meaning.Runs.{capped};
ghost use Rattle.sampler_run.specs.declared.trials.Came.TheVariants.{Rejected};
ghost use Rattle.sampler_run.specs.inner.Tried.{CameTo, HasTried, SpellsOut};

use draw_tree::bits_for;

// An attempt: how many more bits it needs, and the number that those read so far spell. With it the attempts that are left, this
// one among them, the bits that the run has read, and how many bits of the word are left.
#[derive(Clone, Copy, PartialEq, Eq, Debug)]
pub struct Trial {
    pub need: u32,
    pub low: u64,
    pub tries: u64,
    pub used: u64,
    pub left: u32,
}

// What an attempt came to.
#[derive(Clone, Copy, PartialEq, Eq, Debug)]
pub enum Came {
    Number(u64),
    NeedBit,
    // Its number is not below the bound, whatever bits follow.
    Rejected,
}

// Some number below the bound begins with the bits that spell `low`, where `need` more follow.
#[inline(always)]
fn is_below(bound: u64, need: u32, low: u64) -> bool
    requires some { 0 < bound }
    requires need { need < 64 }
    ensures { result ≡ nat_lt (low * 2 ^ need) bound }
{
    low <= (bound - 1) >> need
}

// The number that the first `need` of the lowest `left` bits of a word spell. Where `need` is 0 and `left` is 64 the shift is by
// 0, and the answer 0 all the same.
#[inline(always)]
fn first_bits(need: u32, word: u64, left: u32) -> u64
    requires need { need < 64 }
    requires enough { need ≤ left }
    requires left { left ≤ 64 }
    ensures value { result ≡ word / 2 ^ (left - need) % 2 ^ need }
    ensures small { result < 2 ^ need }
{
    word.wrapping_shr(left - need) % (1 << need)
}

// The number that bits spell behind others, with 0 for each that is missing.
#[inline(always)]
fn behind(low: u64, bits: u64, ready: u32, missing: u32) -> u64
    requires bits { bits < 2 ^ ready }
    requires few { ready + missing < 64 }
    requires low { low * 2 ^ (ready + missing) < 2 ^ 63 }
    ensures { result ≡ (low * 2 ^ ready + bits) * 2 ^ missing }
{
    ((low << ready) + bits) << missing
}

// The number that an attempt spells with the bits at hand, and with 0 for each that is missing; and how many are.
#[inline(always)]
fn spelled(word: u64, trial: Trial) -> (u64, u32)
    requires need { trial.need < 64 }
    requires left { trial.left ≤ 64 }
    requires low { trial.low * 2 ^ trial.need < 2 ^ 63 }
    ensures { SpellsOut word trial result.0 result.1 }
{
    if trial.need <= trial.left {
        let bits = first_bits(trial.need, word, trial.left);
        (behind(trial.low, bits, trial.need, 0), 0)
    } else {
        let bits = first_bits(trial.left, word, trial.left);
        let missing = trial.need - trial.left;
        (behind(trial.low, bits, trial.left, missing), missing)
    }
}

// How many bits of a number are left where those before show that it is not below the bound, as those before the last `need` do
// not.
#[inline(always)]
fn first_above(bound: u64, number: u64, need: u32) -> u32
    requires above { bound ≤ number }
    requires before { number / 2 ^ need * 2 ^ need < bound }
    requires need { need < 64 }
    ensures left { result < need }
    ensures above { bound ≤ number / 2 ^ result * 2 ^ result }
    ensures below { number / 2 ^ (result + 1) * 2 ^ (result + 1) < bound }
{
    63 - (number ^ (bound - 1)).leading_zeros()
}

// The attempt once it needs only `need` bits more of the number that it spells.
#[inline(always)]
fn read_to(trial: Trial, number: u64, need: u32) -> Trial
    requires need { (need ≤ trial.need) × (need < 64) }
    requires enough { trial.need - need ≤ trial.left }
    ensures need { result.need ≡ need }
    ensures low { result.low ≡ number / 2 ^ need }
    ensures tries { result.tries ≡ trial.tries }
    ensures used { result.used ≡ capped (trial.used + (trial.need - need)) }
    ensures known { trial.used < 2 ^ 64 }
    ensures left { result.left ≡ trial.left - (trial.need - need) }
{
    let bits = trial.need - need;
    Trial {
        need,
        low: number >> need,
        tries: trial.tries,
        used: trial.used.saturating_add(u64::from(bits)),
        left: trial.left - bits,
    }
}

// An attempt below a bound, on the lowest bits of a word: it takes those that it needs, and no more once they show that it is
// rejected.
#[inline(always)]
fn attempt(bound: u64, word: u64, trial: Trial) -> (Trial, Came)
    requires bound { (bound < 2 ^ 63) × (0 < bound) }
    requires need { trial.need < 64 }
    requires left { trial.left ≤ 64 }
    ensures tried { HasTried bound word trial result.0 }
    ensures came { CameTo bound result.0 result.1 }
    ensures need { result.0.need ≤ trial.need }
    ensures tries { result.0.tries ≡ trial.tries }
    ensures left { result.0.left ≤ trial.left }
{
    if !is_below(bound, trial.need, trial.low) {
        return (trial, Came::Rejected);
    }
    let (number, missing) = spelled(word, trial);
    if number >= bound {
        let need = first_above(bound, number, trial.need);
        return (read_to(trial, number, need), Came::Rejected);
    }
    let after = read_to(trial, number, missing);
    if missing == 0 {
        (after, Came::Number(number))
    } else {
        (after, Came::NeedBit)
    }
}

// Another attempt begins.
#[inline(always)]
fn again(bound: u64, trial: Trial) -> Trial
    requires bound { bound < 2 ^ 63 }
    requires tries { 1 < trial.tries }
    ensures need { result.need ≡ bits_for bound }
    ensures few { result.need < 64 }
    ensures low { result.low ≡ 0 }
    ensures tries { result.tries ≡ trial.tries - 1 }
    ensures used { result.used ≡ trial.used }
    ensures left { result.left ≡ trial.left }
{
    Trial {
        need: bits_for(bound),
        low: 0,
        tries: trial.tries - 1,
        ..trial
    }
}

// Attempts below a bound, on the lowest bits of a word, to one that is not rejected, or to the last.
#[inline(always)]
pub(crate) fn attempts(bound: u64, word: u64, trial: Trial) -> (Trial, Came)
    requires bound { (bound < 2 ^ 63) × (0 < bound) }
    requires need { trial.need < 64 }
    requires left { trial.left ≤ 64 }
    ensures tried { HasTried bound word trial result.0 }
    ensures came { CameTo bound result.0 result.1 }
    ensures last { result.1 ≡ Rejected → result.0.tries ≤ 1 }
    ensures need { result.0.need < 64 }
{
    let mut trial = trial;
    loop {
        let (after, came) = attempt(bound, word, trial);
        match came {
            Came::Rejected => {
                if after.tries <= 1 {
                    return (after, came);
                }
                trial = again(bound, after);
            }
            Came::Number(_) | Came::NeedBit => return (after, came),
        }
    }
}
