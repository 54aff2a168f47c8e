//! Where an image is not one that this program wrote.

/// The part of an image at which a check of opening failed.
#[derive(Clone, Copy, Debug, PartialEq, Eq)]
pub enum Spot {
    /// The super block.
    Super,
    /// The block in which the first malformed open record begins.
    BadRecord(u32),
    /// A property slot.
    Property(u32),
    /// An axiom slot.
    Axiom(u32),
    /// A file slot.
    File(u32),
    /// A property slot whose word is not known.
    Word(u32),
    /// A bit of the bitmap.
    Bitmap(u32),
    /// An extension row, in versions 1 and 2.
    Row(u32),
    /// The set of a file slot, in version 3.
    Set(u32),
}
