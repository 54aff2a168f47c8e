//! Why a formula text is refused.

/// Why a formula text is refused.
#[derive(Clone, Copy, Debug, PartialEq, Eq)]
pub enum FormulaFault {
    /// The text has more than 1,024 bytes, or the place would be beyond its limits.
    TooLarge,
    /// The text is no formula: the longest prefix of it that begins some formula has this many bytes.
    Syntax(u32),
}
