// A run on one stream.

ghost use Rattle.std.specs.Prelude.{◌≡◌, ◌≤◌, Bool, List};
ghost use Rattle.gcl_core.specs.declared.answers.Answer.{Answer};
ghost use Rattle.sampler_run.specs.Held.{IsRestOf, set_back};
ghost use Rattle.zar_io.specs.StreamBits.{stream_bits};
ghost use Rattle.zar_io.specs.declared.stream_bits.TheConstants.{MOST_BUDGET};
ghost use Rattle.stream_runs.specs.Keys.{key_of_answer, key_on};
ghost use Rattle.stream_runs.specs.Homes.{IsHome};

use gcl_core::{Answer, TallyKey};
use sampler_run::{Run, go_on};
use zar_io::StreamBits;

fn key_of_answer(answer: Answer) -> TallyKey
    ensures { result ≡ key_of_answer answer }
{
    match answer {
        Answer::Ended(outcome, _used) => TallyKey::Outcome(outcome),
        Answer::MoreBits(_used) => TallyKey::MoreBits,
    }
}

/// Runs from where `home` stands, before its first bit, on the first bits of a stream, as many as the budget says: the answer of
/// the run. `bits` is what the bits are read with, whatever it held: it is quick where that was a neighbour of the stream. It takes
/// no memory.
#[inline(always)]
pub fn answer_on_stream<'s>(
    state: &mut Run<'s>,
    home: &Run<'s>,
    bits: &mut StreamBits,
    seed: u64,
    stream: u64,
    budget: u64,
) -> Answer
    requires home { IsHome home.now state.old }
    requires budget { budget ≤ MOST_BUDGET }
    ensures answer { (run : List Bool → Answer) → IsRestOf (set_back state.old) run →
        result ≡ run (stream_bits seed stream budget) }
    ensures same_start { set_back state.new ≡ set_back state.old }
{
    state.fork_from(home);
    bits.begin(seed, stream, budget);
    match go_on(state, bits) {
        Ok(stop) => stop.answer,
        Err(_) => unreachable!(),
    }
}

/// Runs as [`answer_on_stream`] does: the key of the run. It takes no memory.
pub fn run_on_stream<'s>(
    state: &mut Run<'s>,
    home: &Run<'s>,
    bits: &mut StreamBits,
    seed: u64,
    stream: u64,
    budget: u64,
) -> TallyKey
    requires home { IsHome home.now state.old }
    requires budget { budget ≤ MOST_BUDGET }
    ensures key { (run : List Bool → Answer) → IsRestOf (set_back state.old) run → result ≡ key_on run seed budget stream }
    ensures same_start { set_back state.new ≡ set_back state.old }
{
    key_of_answer(answer_on_stream(state, home, bits, seed, stream, budget))
}
