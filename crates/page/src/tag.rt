//! What a block holds, said by its first byte.

ghost use Rattle.std.specs.Prelude.{◌≡◌};
ghost use Rattle.page.specs.Tags.{byte_of};
ghost use Rattle.tree.specs.Nodes.{tag_of};

/// What a block past the head holds.
#[derive(Clone, Copy, PartialEq, Eq, Debug)]
pub enum Tag {
    Leaf = 1,
    Inner = 2,
    Free = 3,
}

impl Tag {
    /// The tag of a leaf or an inner node.
    pub fn of_node(leaf: bool) -> Tag
        ensures { byte_of result ≡ tag_of leaf }
    {
        if leaf { Tag::Leaf } else { Tag::Inner }
    }
}
