ghost use Rattle.std.specs.Prelude.{◌≡◌, ◌++◌, ◌⊎◌, ℕ, List, length};
ghost use Rattle.change_reply.specs.ReplyBytes.{IsChangeReply, reply_bytes};
ghost use Rattle.tree_law.specs.declared.reply.Reply.{Reply};

/// Each reply of a change has one spelling, and no spelling begins another.
pub fn one_spelling()
    ensures { (a b : Reply) (x y : List ℕ) → IsChangeReply a → IsChangeReply b → reply_bytes a ++ x ≡ reply_bytes b ++ y → (a ≡ b) × (x ≡ y) }
{}

/// A reply of a change has 1 or 5 bytes.
pub fn one_or_five()
    ensures { (reply : Reply) → IsChangeReply reply → (length (reply_bytes reply) ≡ 1) ⊎ (length (reply_bytes reply) ≡ 5) }
{}
