ghost use Rattle.std.specs.Prelude.{◌≡◌};
ghost use Rattle.cal_base.specs.declared.identity.ClientId.{ClientId};
ghost use Rattle.tree_law.specs.Tree.{Tree};
ghost use Rattle.tree_law.specs.Answer.{answer};
ghost use Rattle.tree_law.specs.Legal.{IsAllowed};
ghost use Rattle.tree_law.specs.declared.call.Call.{Call};
ghost use Rattle.tree_law.specs.declared.reply.Reply.{Reply};
ghost use Rattle.reply_text.specs.Plain.{IsPlainReply};
ghost use Rattle.reply_text.specs.Text.{reply_text};

/// A text is the reply of a call in one way only: of the replies that a tree allows to a client's call
/// no two are written alike. For the tree's own answer tells no want of an inode or a block.
pub fn a_text_is_one_reply()
    ensures one { (tree : Tree) (client : ClientId) (call : Call) (reply other : Reply) → IsAllowed tree client call reply → IsAllowed tree client call other → reply_text reply ≡ reply_text other → reply ≡ other }
    ensures plain { (tree : Tree) (client : ClientId) (call : Call) → IsPlainReply (answer tree client call) }
{}
