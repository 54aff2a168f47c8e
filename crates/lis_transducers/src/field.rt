//! The fields of a mail.

/// The kind of a field of a mail, by which words are taken from it.
#[derive(Clone, Copy, Debug, PartialEq, Eq)]
pub enum FieldKind {
    /// Who sent the mail.
    From,
    /// Who receives it.
    To,
    /// What it is about.
    Subject,
    /// Any other field, and a line that is no field.
    Other,
}
