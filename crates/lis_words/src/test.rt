//! What a test requires of a size.

/// What a test requires of a size: at least `bytes` bytes, as `size>=` does, or fewer, as `size<` does.
#[derive(Clone, Copy)]
pub struct Test {
    pub at_least: bool,
    pub bytes: u64,
}
