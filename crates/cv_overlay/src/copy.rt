ghost use Rattle.std.specs.Prelude.{◌≡◌, IfOk};

use cv_base::{Content, NoMemory, Node, Seq, TreeEntry};

/// A copy of an entry, with its bytes.
pub fn copied(entry: &TreeEntry) -> Result<TreeEntry, NoMemory>
    ensures { IfOk result (λ copy. copy ≡ entry.now) }
{
    let node = copied_node(&entry.node)?;
    let path = entry.path.clone()?;
    Ok(TreeEntry { path, node })
}

fn copied_node(node: &Node) -> Result<Node, NoMemory>
    ensures { IfOk result (λ copy. copy ≡ node.now) }
{
    match node {
        Node::Dir => Ok(Node::Dir),
        Node::File(content) => Ok(Node::File(copied_content(content)?)),
        Node::Other => Ok(Node::Other),
    }
}

fn copied_content(content: &Content) -> Result<Content, NoMemory>
    ensures { IfOk result (λ copy. copy ≡ content.now) }
{
    match content {
        Content::Bytes(bytes) => Ok(Content::Bytes(copied_bytes(bytes)?)),
        Content::TooLarge => Ok(Content::TooLarge),
        Content::Unread => Ok(Content::Unread),
    }
}

fn copied_bytes(bytes: &Seq<u8>) -> Result<Seq<u8>, NoMemory>
    ensures { IfOk result (λ copy. copy ≡ bytes.now) }
{
    Ok(bytes.clone()?)
}
