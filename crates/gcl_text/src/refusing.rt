// Why a text gives no program.

/// Why a text gives no program.
#[derive(Clone, Copy, PartialEq, Eq, Debug)]
pub enum TextRefusal {
    /// The number of the code, and the place in the text where the code has one.
    Coded(u8, Option<u32>),
    /// Memory ran out, which says nothing of the text.
    OutOfMemory,
}
