ghost use Rattle.std.specs.Prelude.{◌≡◌, ◌∷◌, ◌++◌, [], ℕ, true, List, Option, Some, None, map};
ghost use Rattle.std.specs.Option.{option_to_list};
ghost use Rattle.cal_base.specs.declared.identity.View.{View};
ghost use Rattle.cluster_law.specs.Delivery.{Communicates, as_packet, fresh, oldest};
ghost use Rattle.cluster_law.specs.Ends.{SessionFits, hearer, hearing, speaker};
ghost use Rattle.cluster_law.specs.Lanes.{Lane, back};
ghost use Rattle.cluster_law.specs.Noted.{Setting, Noted};
ghost use Rattle.cluster_law.specs.Sessions.{acked_in, heard_in, made_in, made_now, taken_in};
ghost use Rattle.cluster_law.specs.Trace.{server_of};
ghost use Rattle.lane_facts.specs.Speaking.{opened_by, packets_with};
ghost use Rattle.message.specs.Spelling.{message_bytes};
ghost use Rattle.session.specs.Session.{SessionState, bare_ack_of, is_of_session, new_session, tick_packet};
ghost use Rattle.session.specs.declared.packet.Packet.{Packet};

use cluster_law::{a_session_goes_on, what_is_acknowledged_was_taken, what_is_taken_was_made};

/// Where nothing was made, taken or acknowledged on a lane, a new session between its two nodes fits it.
pub fn a_session_begins()
    ensures { (w : Setting) (lane : Lane) (trace : List Noted) → made_in lane trace ≡ [] → taken_in w (back lane) trace ≡ 0 → acked_in w lane trace ≡ 0
        → SessionFits w trace lane (new_session (speaker lane.way lane.client (server_of lane.view trace)) (hearer lane.way lane.client (server_of lane.view trace)) (record { 0 = lane.view })) }
{}

/// An end of a session that fits the lane on which it speaks sends what a step has to send there.
/// - What the step hears on the other lane is of the session.
/// - The messages that go out for the first time are those that the heard packet lets out of the queue, and
///   then those that the step makes, as far as they needn't queue.
/// - The oldest message that isn't acknowledged is the one that a tick sends again, where nothing was heard.
/// - A bare acknowledgement is the one of the session that has heard.
pub fn an_end_sends_as_its_lane()
    ensures heard { (w : Setting) (lane : Lane) (s : Noted) (earlier : List Noted) (session : SessionState) (packet : Packet) → SessionFits w earlier lane session
        → heard_in w (back lane) earlier s ≡ Some packet → is_of_session session packet ≡ true }
    ensures fresh { (w : Setting) (lane : Lane) (s : Noted) (earlier : List Noted) (session : SessionState) → Communicates w earlier → server_of lane.view (s ∷ earlier) ≡ server_of lane.view earlier → SessionFits w earlier lane session
        → fresh w lane s earlier ≡ opened_by session (heard_in w (back lane) earlier s) ++ packets_with (hearing session (heard_in w (back lane) earlier s)) (map message_bytes (made_now lane s)) }
    ensures oldest { (w : Setting) (lane : Lane) (s : Noted) (earlier : List Noted) (session : SessionState) → server_of lane.view (s ∷ earlier) ≡ server_of lane.view earlier → SessionFits w earlier lane session
        → heard_in w (back lane) earlier s ≡ None → oldest w lane s earlier ≡ option_to_list (tick_packet session) }
    ensures bare { (w : Setting) (lane : Lane) (s : Noted) (earlier : List Noted) (session : SessionState) → server_of lane.view (s ∷ earlier) ≡ server_of lane.view earlier → SessionFits w earlier lane session
        → as_packet w lane s earlier 0 [] ≡ bare_ack_of (hearing session (heard_in w (back lane) earlier s)) }
{
    // these laws tell what is acknowledged and taken after the step, and that no more is acknowledged than was made
    a_session_goes_on();
    what_is_acknowledged_was_taken();
    what_is_taken_was_made();
}
