//! The first blocks of four ChaCha20 streams of one key, computed side by side, each in its own lane of vectors of four words.
//!
//! Proved (`first_blocks`): word k of lane j is the word number k of the stream of the number at place j, as `rand_chacha`
//! defines the words of a stream with ten double rounds, for every seed and all four numbers.
//!
//! No clause says that this is faster than one block after the other. Nothing is written behind the first 16 words of a stream:
//! who reads further goes on with `rand_chacha`. The call takes no memory, asks for nothing and always answers.
#![tactic(auto)]

mod blocks;
mod rounds;

pub use blocks::first_blocks;
