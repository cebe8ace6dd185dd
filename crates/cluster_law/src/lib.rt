//! The steps of a cluster, and the rules that a list of steps keeps: what both nodes are held to, and what
//! is shown of the whole.
//!
//! - [`Event`] is what may happen, [`TraceStep`] what one step then printed; [`ClientInput`] to
//!   [`ServerHalted`] are what a node's machine takes and gives. A trace is a list of steps with their
//!   notes (specs/Noted), newest first: what the node did in the step, and the disk after it.
//! - Everything that rules speak of is a fold over a trace: the packets sent (specs/Trace), and of each
//!   direction of a session what was made, sent, taken and acknowledged (specs/Lanes).
//! - The rules are records over a setting, a new step and the steps before it, each stated of a state. They
//!   are about packets (specs/Delivery); what a client sees, holds, answers and sends (specs/Sight, Book,
//!   Coverage, ClientState, Owed, and as rules ClientRules); what a server knows, grants, asks and removes
//!   (specs/ServerState, Blocking, Granting, Asking, Removing, and as rules ServerRules); the disk
//!   (specs/DiskRules); and the rest (specs/Rules).
//! - What users may rely on is in specs/Promises, what carries it from step to step in specs/Carrying, and
//!   all of it in specs/Law.
//!
//! The laws on packets: a packet keeps its number ([`a_packet_keeps_its_number`]); counts only grow
//! ([`counts_only_grow`]); what was taken is the beginning of what was made ([`what_is_taken_was_made`]);
//! what is acknowledged was taken ([`what_is_acknowledged_was_taken`]); a taken packet carries the message of
//! its number ([`a_taken_packet_has_its_message`]); an end of a session goes on as its lane does
//! ([`a_session_goes_on`]); and what is heard is answered ([`a_heard_packet_is_answered`]). A hold that is
//! reported and judged is the one that counts ([`a_report_judged_is_the_hold`]). The others, in
//! src/refusals.rt, tell what no step does that keeps the rules.
#![tactic(auto)]

mod laws;
mod node;
mod refusals;
mod step;

pub use laws::{
    a_heard_packet_is_answered, a_packet_keeps_its_number, a_report_judged_is_the_hold,
    a_session_goes_on, a_taken_packet_has_its_message, counts_only_grow,
    what_is_acknowledged_was_taken, what_is_taken_was_made,
};
pub use node::{ClientInput, ClientOutput, ServerHalted, ServerInput, ServerOutput};
pub use refusals::{
    a_client_answers_what_is_covered, a_collecting_server_serves_nobody,
    a_covered_call_needs_no_message, a_grant_comes_after_what_blocks_it, a_number_is_new,
    each_is_told_once, no_more_are_asked_than_the_window_lets, space_is_refused_last,
    the_living_are_not_purged,
};
pub use step::{Answer, Event, Halt, SectorWrite, TraceStep};
