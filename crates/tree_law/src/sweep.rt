ghost use Rattle.std.specs.Prelude.{◌≡◌};
ghost use Rattle.std.specs.Option.{option_copied};
ghost use Rattle.tree_law.specs.Idle.{dropped, is_flushed_file, is_idle, names_it, swept};

use crate::node::Node;
use crate::plain_tree::PlainTree;
use cal_base::Ino;

impl PlainTree {
    /// Drops each file without name, without descriptor and without unflushed write.
    pub(crate) fn sweep(&mut self)
        ensures { self.new ≡ swept self.old }
    {
        for number in 0..512u32 {
            self.drop_idle(number);
        }
    }

    /// Drops what stands at a number, if that is idle.
    fn drop_idle(&mut self, number: u32)
        ensures { self.new ≡ dropped self.old number }
    {
        if self.is_idle(number) {
            self.put_node(number, None);
        }
    }

    /// Whether a file stands at a number that has no name, no descriptor and no unflushed write.
    fn is_idle(&self, number: u32) -> bool
        ensures { result ≡ is_idle self.now number }
    {
        is_flushed_file(self.node(Ino(number))) && !self.is_open(number) && !self.is_named(number)
    }
}

/// Whether this is a file of which all is flushed.
fn is_flushed_file(node: Option<&Node>) -> bool
    ensures { result ≡ is_flushed_file (option_copied node.entry) }
{
    match node {
        Some(Node::Directory(_)) => false,
        Some(Node::Regular(file)) => file.writer().is_none(),
        None => false,
    }
}

/// Whether this is a directory in which a name stands for this inode.
pub(crate) fn names_it(number: u32, node: &Option<Node>) -> bool
    ensures { result ≡ names_it number node.now }
{
    match node {
        Some(Node::Directory(names)) => names.names_inode(number),
        Some(Node::Regular(_)) => false,
        None => false,
    }
}
