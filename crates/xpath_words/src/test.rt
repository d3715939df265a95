//! What a step asks of a node.

use sig_base::Text;

/// A node test (XPath 1.0 §2.3). Prefixes are replaced by the namespace names that they stand for.
#[derive(Drop)]
pub enum NodeTest {
    /// `*`: a node of the axis's own kind.
    Any,
    /// `prefix:*`: such a node whose name is in this namespace.
    AnyIn(Text),
    /// A name: such a node of this namespace name, empty where the name has no prefix, and local name.
    Named {
        /// The namespace name.
        uri: Text,
        /// The local name.
        local: Text,
    },
    /// `comment()`.
    Comment,
    /// `text()`.
    Words,
    /// `node()`.
    Node,
    /// `processing-instruction()`, with its target where one is given.
    Instruction(Option<Text>),
}
