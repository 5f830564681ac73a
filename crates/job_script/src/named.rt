//! Names that stand for nodes, and files of nodes.
ghost use Rattle.std.specs.Prelude.{◌≡◌};
ghost use Rattle.std.specs.Str.{bytes_eq};
ghost use Rattle.job_script.specs.Names.{node_called};

use array_expr::NodeId;
use std::marker::Model;

/// A name, or the name of a file, with its node.
#[derive(Drop)]
pub struct Named {
    name: Vec<u8>,
    node: NodeId,
}

impl Model for Named {
    ghost use Rattle.job_script.specs.Names.{Called};

    ghost Value = { Called };

    ghost view = { λ n. record { name = n.name.items; node = n.node } };
}

impl Named {
    pub(crate) fn new(name: Vec<u8>, node: NodeId) -> Self
        ensures { result ≡ record { name = name.items; node = node } }
    {
        Named { name, node }
    }

    /// The name. Takes no memory.
    pub fn name(&self) -> &[u8]
        ensures { result.now ≡ self.now.name }
    {
        self.name.as_slice()
    }

    /// The node. Takes no memory.
    pub fn node(&self) -> NodeId
        ensures { result ≡ self.now.node }
    {
        self.node
    }

    /// Gives the name back. Takes no memory.
    pub fn into_name(self) -> Vec<u8>
        ensures { result.items ≡ self.name }
    {
        let Named { name, node: _ } = self;
        name
    }

    fn is_called(&self, name: &[u8]) -> bool
        ensures { result ≡ bytes_eq self.now.name name.now }
    {
        self.name() == name
    }
}

// The first node of this name.
pub(crate) fn find_node(list: &[Named], name: &[u8]) -> Option<NodeId>
    ensures { result ≡ node_called list.now name.now }
{
    for named in list {
        if named.is_called(name) {
            return Some(named.node());
        }
    }
    None
}
