//! A cache does with a call what the law says of its book.
ghost use Rattle.std.specs.Prelude.{◌≡◌, ◌+◌, ◌<◌, ℕ, List, Option, Some, false, filter, length, nat_eq, not, true};
ghost use Rattle.cal_base.specs.declared.identity.Ino.{Ino};
ghost use Rattle.client_cache.specs.AfterAnswer.{after_answer};
ghost use Rattle.client_cache.specs.Changes.{after_flushed, after_lower, after_start, after_take, flush_numbered};
ghost use Rattle.client_cache.specs.Holds.{hold_in};
ghost use Rattle.client_cache.specs.Covered.{covered};
ghost use Rattle.client_cache.specs.Known.{Known, inode_at};
ghost use Rattle.client_cache.specs.Next.{next_of as next_known};
ghost use Rattle.client_cache.specs.Reports.{reports};
ghost use Rattle.delayed_write.specs.Marks.{no_marks};
ghost use Rattle.token_kind.specs.Hold.{hold_number};
ghost use Rattle.token_kind.specs.Kept.{classes_rise};
ghost use Rattle.token_kind.specs.declared.«class».Class.{Class};
ghost use Rattle.token_kind.specs.declared.flush.Flush.{Flush};
ghost use Rattle.token_kind.specs.declared.grant_item.GrantItem.{GrantItem};
ghost use Rattle.token_kind.specs.declared.hold.Hold.{Hold};
ghost use Rattle.tree_law.specs.declared.call.Call.{Call};
ghost use Rattle.token_kind.specs.declared.revoke.Revoke.{Revoke};
ghost use Rattle.cluster_law.specs.Book.{flushed, revoked, with_flush, with_hold, with_items, with_marks, with_token, without_flush};
ghost use Rattle.cluster_law.specs.Coverage.{is_covered, next_of};
ghost use Rattle.cluster_law.specs.ClientState.{Turn, client_after, written_back};
ghost use Rattle.cluster_law.specs.Lists.{Each};
ghost use Rattle.cluster_law.specs.Owed.{report};
ghost use Rattle.cluster_law.specs.Sight.{Sight, altered};
ghost use Rattle.client_book.specs.Booked.{KeepsMarks, book_of, flushing_of, sight_of};
ghost use Rattle.client_book.specs.Client.{ClientValue, FitsCalls, FitsTurn, hears_in, state_of, value_after};
ghost use Rattle.client_book.specs.Memory.{FitItems, FitsFlushed, Memory, book_in, flushed_in, items_in, revoked_in, written_back_in};

/// A client's cache covers the calls that the law covers by its book and its sight, and no others.
pub fn a_cache_covers_as_its_book()
    ensures { (known : Known) (remembered : List Revoke) (call : Call) → covered known call ≡ is_covered (sight_of known) (book_of known remembered) call }
{}

/// A client's cache does with a call what the law says: it answers, waits, flushes or asks.
pub fn a_cache_goes_on_as_its_book()
    ensures { (known : Known) (remembered : List Revoke) (call : Call) → next_known known call ≡ next_of (sight_of known) (book_of known remembered) call }
{}

/// Where a cache starts a flush, takes an item of a Grant, lowers a hold, or ends a flush, its book is the one
/// that the law makes of it, and so it is where it answers a call. An item's bytes come, a hold is lowered,
/// and a flush ends, where nothing of the file is marked.
pub fn a_cache_changes_as_its_book()
    ensures starts { (known : Known) (remembered : List Revoke) (flush : Flush) → flush.ino.0 < length known.inodes → flush.number ≡ known.last_flush + 1
        → book_of (after_start known flush) remembered ≡ with_flush (book_of known remembered) flush.ino flush.leave_data flush.leave_attr }
    ensures takes { (known : Known) (remembered : List Revoke) (item : GrantItem) → item.ino.0 < length known.inodes → KeepsMarks (inode_at known item.ino) item.content
        → book_of (after_take known item) remembered ≡ with_token (book_of known remembered) item.ino item.«class» item.hold }
    ensures lowers { (known : Known) (remembered : List Revoke) (ino : Ino) (cls : Class) (to : Hold) → ino.0 < length known.inodes → (inode_at known ino).file.marks ≡ no_marks → hold_number to < hold_number (hold_in (inode_at known ino).holds cls)
        → book_of (after_lower known ino cls to) remembered ≡ record (book_of known remembered) { holds = with_hold (book_of known remembered).holds ino cls to } }
    ensures ends { (known : Known) (remembered : List Revoke) (flush : Flush) → flush_numbered known flush.number ≡ Some flush → flush.ino.0 < length known.inodes → (inode_at known flush.ino).file.marks ≡ no_marks
        → book_of (after_flushed known flush.number) (filter (λ revoke. not (nat_eq revoke.ino.0 flush.ino.0)) remembered) ≡ without_flush (book_of known remembered) (flushing_of flush) }
    ensures answers { (known : Known) (remembered : List Revoke) (call : Call) → ((ino : Ino) → altered (sight_of known) call ≡ Some ino → ino.0 < length known.inodes)
        → book_of (after_answer known call) remembered ≡ with_marks (sight_of known) (book_of known remembered) call (altered (sight_of known) call) }
{}

/// Where a client takes a Revoke, a Flushed or a Grant, or writes a file back, what it has in memory (`Memory`)
/// goes on as the law says of its book: what is remembered behind a flush, too. A Revoke names classes in
/// rising order, and nothing of a file is unflushed while a flush of it is under way.
pub fn a_cache_hears_as_its_book()
    ensures revokes { (m : Memory) (sight : Sight) (ino : Ino) (asked : List (Class × Hold)) → ino.0 < length m.known.inodes → classes_rise 0 asked ≡ true → sight.unflushed ino ≡ (inode_at m.known ino).file.unflushed
        → ((inode_at m.known ino).file.unflushed ≡ false → (inode_at m.known ino).file.marks ≡ no_marks) → book_in (revoked_in m ino asked) ≡ revoked sight (book_in m) ino asked }
    ensures flushes { (m : Memory) (number : ℕ) → FitsFlushed m.known (flush_numbered m.known number) → Each (λ revoke. classes_rise 0 revoke.items ≡ true) m.remembered → book_in (flushed_in m number) ≡ flushed (sight_of m.known) (book_in m) number }
    ensures grants { (known : Known) (remembered : List Revoke) (items : List GrantItem) → FitItems known items → book_of (items_in known items) remembered ≡ with_items (book_of known remembered) items }
    ensures writes_back { (m : Memory) (file : Option Ino) → ((ino : Ino) → file ≡ Some ino → ino.0 < length m.known.inodes) → book_in (written_back_in m file) ≡ written_back (sight_of m.known) (book_in m) file }
{}

/// What a cache reports where a server asks is its book.
pub fn a_cache_reports_its_book()
    ensures { (known : Known) (remembered : List Revoke) → reports known ≡ report (book_of known remembered) }
{}

/// A client at its own values, its cache in the place of the book, is after a step what the law makes of it. What
/// comes fits (`FitsTurn`), and so do the files of its call (`FitsCalls`).
pub fn a_client_steps_as_the_law()
    ensures { (v : ClientValue) (turn : Turn) → FitsTurn v turn → FitsCalls (hears_in v turn).memory.known (hears_in v turn).call
        → state_of (value_after v turn) ≡ client_after (sight_of v.memory.known) (sight_of (hears_in v turn).memory.known) (state_of v) turn }
{}
