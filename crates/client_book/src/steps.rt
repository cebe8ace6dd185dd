//! A client at its own values keeps the law, and what stands of it goes on to stand.
ghost use Rattle.std.specs.Prelude.{◌≡◌, ◌+◌, ◌<◌, ◌≤◌, ◌^◌, ℕ, length, map};
ghost use Rattle.client_cache.specs.IsKnown.{IsKnown};
ghost use Rattle.cluster_law.specs.ClientRules.{answer_with, own_entry};
ghost use Rattle.cluster_law.specs.ClientState.{Turn, first_client, reply_in};
ghost use Rattle.cluster_law.specs.Owed.{owed, tale_of};
ghost use Rattle.client_book.specs.Booked.{sight_of};
ghost use Rattle.client_book.specs.Client.{ClientValue, hears_in, state_of, value_after};
ghost use Rattle.client_book.specs.Made.{messages_in, reply_at};
ghost use Rattle.client_book.specs.Sound.{HasSpelling, IsClient, IsFree, KeepsLaw, MayCome, first_value, most_messages};

/// A client that has done nothing yet is one, and is the law's first.
pub fn a_new_client_is_sound()
    ensures sound { IsKnown first_value.memory.known → IsClient first_value }
    ensures first { state_of first_value ≡ first_client }
{}

/// What stands of a client stands after each step: nothing of a file is unflushed while a flush of it is under
/// way, what is remembered is what was asked, and a request is that of the outstanding call. What comes has a
/// spelling, and a call starts where none is outstanding. Of what a cache knows that is kept by its type.
pub fn a_client_stays_sound()
    ensures { (v : ClientValue) (turn : Turn) → IsClient v → HasSpelling turn → IsFree v turn → v.calls < 2 ^ 63 → IsKnown (value_after v turn).memory.known → IsClient (value_after v turn) }
{}

/// The counts of a client grow slowly: in a step by one call, two flushes, and one message for each file and
/// one more, but for those of Revokes that waited, of which each makes one message at most.
pub fn counts_grow_slowly()
    ensures calls { (v : ClientValue) (turn : Turn) → (value_after v turn).calls ≤ v.calls + 1 }
    ensures flushes { (v : ClientValue) (turn : Turn) → IsClient v → (value_after v turn).memory.known.last_flush ≤ v.memory.known.last_flush + 2 }
    ensures messages { (v : ClientValue) (turn : Turn) → IsClient v → length (messages_in v turn) + length (value_after v turn).memory.remembered ≤ length v.memory.remembered + most_messages }
{}

/// The messages of a step are those that the law says are owed, and its reply is the law's. Bytes come with a
/// Grant where nothing is marked.
pub fn a_client_says_what_it_owes()
    ensures says { (v : ClientValue) (turn : Turn) → IsClient v → HasSpelling turn → MayCome v turn → map tale_of (messages_in v turn) ≡ owed (sight_of v.memory.known) (sight_of (hears_in v turn).memory.known) (state_of v) turn }
    ensures replies { (v : ClientValue) (turn : Turn) → IsClient v → HasSpelling turn → MayCome v turn → reply_at v turn ≡ reply_in (sight_of v.memory.known) (sight_of (hears_in v turn).memory.known) (state_of v) turn }
{}

/// So a step of a client keeps the law.
pub fn a_client_keeps_the_law()
    ensures { (client : ℕ) (v : ClientValue) (turn : Turn) → IsClient v → HasSpelling turn → MayCome v turn
        → KeepsLaw client v (value_after v turn) turn (messages_in v turn) (answer_with (value_after v turn).calls (reply_at v turn)) (own_entry client (value_after v turn).calls (hears_in v turn).call (reply_at v turn)) }
{}
