//! The nodes of formulas.

ghost use Rattle.std.specs.Prelude.{◌≡◌};

use lis_words::Word;

/// A node of a formula: a word, a test of a file's size, or an operator on the trees before it.
#[derive(Drop, Debug, PartialEq, Eq)]
pub enum Node {
    /// The description has the word.
    Word(Word),
    /// The file has at least this many bytes.
    AtLeast(u64),
    /// The file has fewer bytes than this.
    Below(u64),
    /// The tree before it doesn't hold.
    Not,
    /// Both of the two trees before it hold.
    And,
    /// One of the two trees before it holds, or both.
    Or,
}

/// The node `Not`, for a container of fixed capacity that needs an initial value.
impl Default for Node {
    ghost use Rattle.lis_place.specs.declared.node.Node.TheVariants.{Not};

    ghost is_default = { λ node. node ≡ Not };

    fn default() -> Self {
        Node::Not
    }
}

impl Node {
    /// The same node, without an allocation.
    pub fn copied(&self) -> Node
        ensures { result ≡ self.now }
    {
        match self {
            Node::Word(word) => Node::Word(word.copied()),
            Node::AtLeast(size) => Node::AtLeast(*size),
            Node::Below(size) => Node::Below(*size),
            Node::Not => Node::Not,
            Node::And => Node::And,
            Node::Or => Node::Or,
        }
    }
}
