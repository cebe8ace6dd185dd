ghost use Rattle.std.specs.Prelude.{◌≡◌, ◌++◌, ◌∷◌, [], Ok, IfOk, OnOk, map};
ghost use Rattle.image.specs.Needed.{needed};
ghost use Rattle.image.specs.Nodes.{node_of};
ghost use Rattle.token_kind.specs.Class.{class_number};
ghost use Rattle.token_kind.specs.Hold.{hold_number};
ghost use Rattle.tree_law.specs.Needs.{look_needs, needs_of_want, open_needs, path_needs, stat_needs, walk_needs};
ghost use Rattle.tree_law.specs.Tree.{root};
ghost use Rattle.volume_plan.specs.Shown.{shown};

use crate::image::Image;
use crate::shown_node::ShownNode;
use cal_base::{Blob, Ino, Oom};
use std::alloc::Global;
use token_kind::{Class, Hold, Token, TokenList};
use tree_law::{Lookup, Want, resolve};

impl Image {
    /// The tokens that a client needs for what it wants, in order.
    pub fn needs(&self, alloc: Global, want: &Want) -> Result<TokenList, Oom>
        ensures { IfOk result (λ tokens. map needed tokens ≡ needs_of_want (shown self.now) want.now) }
    {
        match want {
            Want::Stat(path) => self.stat_needs(alloc, path.names()),
            Want::Open(path) => self.open_needs(alloc, path.names()),
            Want::Readdir(path) => self.readdir_needs(alloc, path.names()),
            Want::Read(ino) => file_needs(alloc, *ino, Hold::Read),
            Want::Write(ino) => file_needs(alloc, *ino, Hold::Write),
        }
    }

    /// The tokens for a `stat` of a path.
    fn stat_needs(&self, alloc: Global, path: &[Blob]) -> Result<TokenList, Oom>
        ensures { IfOk result (λ tokens. map needed tokens ≡ path_needs stat_needs (shown self.now) path.now) }
    {
        let mut tokens = TokenList::new(alloc);
        self.put_walk(path, &mut tokens)?;
        if let Ok(ino) = resolve(self, path) {
            put_stat(self.node(ino), ino, &mut tokens)?;
        }
        Ok(tokens)
    }

    /// The tokens for an `open` of a path.
    fn open_needs(&self, alloc: Global, path: &[Blob]) -> Result<TokenList, Oom>
        ensures { IfOk result (λ tokens. map needed tokens ≡ path_needs open_needs (shown self.now) path.now) }
    {
        let mut tokens = TokenList::new(alloc);
        self.put_walk(path, &mut tokens)?;
        if let Ok(ino) = resolve(self, path) {
            put_open(self.node(ino), ino, &mut tokens)?;
        }
        Ok(tokens)
    }

    /// The tokens for a `readdir` of a path.
    fn readdir_needs(&self, alloc: Global, path: &[Blob]) -> Result<TokenList, Oom>
        ensures { IfOk result (λ tokens. map needed tokens ≡ path_needs look_needs (shown self.now) path.now) }
    {
        let mut tokens = TokenList::new(alloc);
        self.put_walk(path, &mut tokens)?;
        if let Ok(ino) = resolve(self, path) {
            put_look(self.node(ino), ino, &mut tokens)?;
        }
        Ok(tokens)
    }

    /// Puts the tokens for the directories in which the names of a path are looked up.
    fn put_walk(&self, path: &[Blob], tokens: &mut TokenList) -> Result<(), Oom>
        ensures { OnOk result (map needed tokens.new ≡ map needed tokens.old ++ walk_needs (shown self.now) (Ok root) path.now) }
    {
        let mut at = Ino::ROOT;
        for name in path {
            put_look(self.node(at), at, tokens)?;
            match self.look_up(at, name) {
                Ok(next) => at = next,
                Err(_) => return Ok(()),
            }
        }
        Ok(())
    }
}

/// Puts one token.
fn put(ino: Ino, class: Class, hold: Hold, tokens: &mut TokenList) -> Result<(), Oom>
    ensures { OnOk result (map needed tokens.new ≡ map needed tokens.old ++ (ino, class_number class, hold_number hold) ∷ []) }
{
    tokens.push(Token { ino, class, hold })?;
    Ok(())
}

/// Puts Names Read of what a name is looked up in, if that is a directory.
fn put_look(node: ShownNode<'_>, ino: Ino, tokens: &mut TokenList) -> Result<(), Oom>
    ensures { OnOk result (map needed tokens.new ≡ map needed tokens.old ++ look_needs (node_of node.entry) ino) }
{
    match node {
        ShownNode::Directory(_) => put(ino, Class::Names, Hold::Read, tokens)?,
        ShownNode::File => {}
        ShownNode::Nothing => {}
    }
    Ok(())
}

/// Puts Attr Read of what is a file.
fn put_stat(node: ShownNode<'_>, ino: Ino, tokens: &mut TokenList) -> Result<(), Oom>
    ensures { OnOk result (map needed tokens.new ≡ map needed tokens.old ++ stat_needs (node_of node.entry) ino) }
{
    match node {
        ShownNode::Directory(_) => {}
        ShownNode::File => put(ino, Class::Attr, Hold::Read, tokens)?,
        ShownNode::Nothing => {}
    }
    Ok(())
}

/// Puts Open of what is a file.
fn put_open(node: ShownNode<'_>, ino: Ino, tokens: &mut TokenList) -> Result<(), Oom>
    ensures { OnOk result (map needed tokens.new ≡ map needed tokens.old ++ open_needs (node_of node.entry) ino) }
{
    match node {
        ShownNode::Directory(_) => {}
        ShownNode::File => put(ino, Class::Open, Hold::Read, tokens)?,
        ShownNode::Nothing => {}
    }
    Ok(())
}

/// Data and Attr of a file.
fn file_needs(alloc: Global, ino: Ino, hold: Hold) -> Result<TokenList, Oom>
    ensures { IfOk result (λ tokens. map needed tokens ≡ (ino, 2, hold_number hold) ∷ (ino, 3, hold_number hold) ∷ []) }
{
    let mut tokens = TokenList::new(alloc);
    put(ino, Class::Data, hold, &mut tokens)?;
    put(ino, Class::Attr, hold, &mut tokens)?;
    Ok(tokens)
}
