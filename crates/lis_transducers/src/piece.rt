//! The pieces of a C source.

/// What a piece of a source is.
#[derive(Clone, Copy, Debug, PartialEq, Eq)]
pub enum Kind {
    /// A space or a tab.
    Blank,
    /// Other white space, except a line feed.
    White,
    /// A line feed outside comments.
    Feed,
    /// A comment of either form.
    Comment,
    /// A string or a character literal.
    Literal,
    /// An identifier or a keyword.
    Identifier,
    /// A number.
    Number,
    /// The path of an include, by the byte that closes it.
    Path(u8),
    /// Any other byte.
    Mark(u8),
}

/// Where a piece is in its line.
#[derive(Clone, Copy, Debug, PartialEq, Eq)]
pub enum Context {
    /// After white space and comments alone.
    LineStart,
    /// After something else, outside directives.
    Code,
    /// After the `#` of a directive.
    Hash,
    /// After the `include` of a directive.
    Include,
    /// After something else in a directive.
    Directive,
}
