//! What follows from the rules of delivery alone, for every trace: whatever is lost, repeated or comes out
//! of order.
ghost use Rattle.std.specs.Prelude.{◌≡◌, ◌≢◌, ◌≤◌, ◌<◌, ◌∷◌, ◌+◌, [], ℕ, IfSome, IsTrue, List, Option, Some, false, length, map, slice_get};
ghost use Rattle.cal_base.specs.declared.identity.Ino.{Ino};
ghost use Rattle.message.specs.Spelling.{message_bytes};
ghost use Rattle.message.specs.declared.message.Message.{Message};
ghost use Rattle.rebuild.specs.Reports.{judged};
ghost use Rattle.session.specs.Session.{SessionState};
ghost use Rattle.session.specs.declared.packet.Packet.{Packet};
ghost use Rattle.token_kind.specs.declared.«class».Class.{Class};
ghost use Rattle.token_kind.specs.declared.hold.Hold.{Hold};
ghost use Rattle.cluster_law.specs.Book.{Flushing};
ghost use Rattle.cluster_law.specs.Delivery.{Communicates, KeepsDelivery, speaks, sent_on};
ghost use Rattle.cluster_law.specs.Ends.{SessionFits, hearing, making};
ghost use Rattle.cluster_law.specs.Lanes.{Lane, back};
ghost use Rattle.cluster_law.specs.Lists.{numbered};
ghost use Rattle.cluster_law.specs.Noted.{Setting, Noted, halts};
ghost use Rattle.cluster_law.specs.Owed.{reported_as};
ghost use Rattle.cluster_law.specs.Promises.{left_or_held};
ghost use Rattle.cluster_law.specs.Sessions.{made_in, made_now, sent_in, taken_in, acked_in, heard_in};
ghost use Rattle.cluster_law.specs.Trace.{packets, server_of};

/// A packet keeps its number in all later steps.
pub fn a_packet_keeps_its_number()
    ensures { (s : Noted) (earlier : List Noted) (i : ℕ) (p : Packet) → slice_get (packets earlier) i ≡ Some p → slice_get (packets (s ∷ earlier)) i ≡ Some p }
{}

/// Of a lane the counts of what was made, sent, taken and acknowledged only grow.
pub fn counts_only_grow()
    ensures made { (lane : Lane) (s : Noted) (earlier : List Noted) → length (made_in lane earlier) ≤ length (made_in lane (s ∷ earlier)) }
    ensures sent { (w : Setting) (lane : Lane) (s : Noted) (earlier : List Noted) → sent_in w lane earlier ≤ sent_in w lane (s ∷ earlier) }
    ensures taken { (w : Setting) (lane : Lane) (s : Noted) (earlier : List Noted) → taken_in w lane earlier ≤ taken_in w lane (s ∷ earlier) }
    ensures acknowledged { (w : Setting) (lane : Lane) (s : Noted) (earlier : List Noted) → acked_in w lane earlier ≤ acked_in w lane (s ∷ earlier) }
{}

/// What was taken of a lane was sent in it, and so is a front part of what was made.
pub fn what_is_taken_was_made()
    ensures sent { (w : Setting) (lane : Lane) (trace : List Noted) → Communicates w trace → taken_in w lane trace ≤ sent_in w lane trace }
    ensures made { (w : Setting) (lane : Lane) (trace : List Noted) → Communicates w trace → taken_in w lane trace ≤ length (made_in lane trace) }
{}

/// What the sender of a lane knows to be taken was taken.
pub fn what_is_acknowledged_was_taken()
    ensures { (w : Setting) (lane : Lane) (trace : List Noted) → Communicates w trace → acked_in w lane trace ≤ taken_in w lane trace }
{}

/// The next packet of a lane that a step hears has the bytes of the message of its number.
pub fn a_taken_packet_has_its_message()
    ensures { (w : Setting) (lane : Lane) (s : Noted) (earlier : List Noted) (p : Packet) → Communicates w earlier → heard_in w lane earlier s ≡ Some p → p.seq ≡ taken_in w lane earlier + 1
        → (m : Message) × (numbered (made_in lane earlier) p.seq ≡ Some m) × (p.body ≡ message_bytes m) }
{}

/// One end of a session goes on as the lane of a trace does on which it speaks: where it fits before a step,
/// it fits after it, once it has heard what the step hears of the other end and was handed what the step
/// makes. So counts and waiting messages need not be looked at again by whoever follows a node.
pub fn a_session_goes_on()
    ensures { (w : Setting) (lane : Lane) (s : Noted) (earlier : List Noted) (session : SessionState) → Communicates w earlier → server_of lane.view (s ∷ earlier) ≡ server_of lane.view earlier → SessionFits w earlier lane session
        → SessionFits w (s ∷ earlier) lane (making (hearing session (heard_in w (back lane) earlier s)) (map message_bytes (made_now lane s))) }
{}

/// A packet with a number that a step hears is answered in that step, by a message or a bare
/// acknowledgement, unless the step halts. So no node that acknowledges nothing keeps the rules.
pub fn a_heard_packet_is_answered()
    ensures { (w : Setting) (lane : Lane) (s : Noted) (earlier : List Noted) (packet : Packet) → KeepsDelivery w s earlier → IsTrue (speaks earlier s lane) → halts s ≡ false
        → heard_in w (back lane) earlier s ≡ Some packet → 0 < packet.seq → sent_on lane s ≢ [] }
{}

/// What a server makes of a hold that a client reports, judged by the client's last flush on the disk, is what
/// counts as held: the hold, or what a flush leaves once it is on the disk. So a client's move to another
/// server changes nothing of what it holds.
pub fn a_report_judged_is_the_hold()
    ensures { (done : ℕ) (ino : Ino) (cls : Class) (hold : Hold) (flush : Option Flushing) → IfSome flush (λ f. 0 < f.number) → (judged done (reported_as ino cls hold flush)).hold ≡ left_or_held done cls hold flush }
{}
