// How statements begin.

/// What a statement begins with: a reserved name, or a variable by its number.
#[derive(Clone, Copy, PartialEq, Eq)]
pub enum Start {
    Skip,
    Name(u32),
    Observe,
    If,
    While,
    Choice,
    Choose,
}
