// Why a text gives no program.

use thiserror::Error;

/// Why a text gives no program.
#[derive(Clone, Copy, Debug, PartialEq, Eq, Error)]
pub enum ReadError {
    /// The text spells none.
    #[error("no program")]
    NoProgram,
    #[error("out of memory")]
    OutOfMemory,
}
