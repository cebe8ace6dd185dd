ghost use Rattle.std.specs.Prelude.{◌≡◌, ◌<◌, ◌^◌, ℕ, List, true, codes, Option, Ok};
ghost use Rattle.std.specs.Fmt.{decimal};
ghost use Rattle.cal_base.specs.declared.identity.ClientId.{ClientId};
ghost use Rattle.cal_base.specs.declared.identity.NodeId.{NodeId};
ghost use Rattle.tree_law.specs.declared.entry.Entry.{Entry};
ghost use Rattle.tree_law.specs.declared.reply.Reply.{Reply};
ghost use Rattle.token_kind.specs.declared.block.Block.{Block};
ghost use Rattle.session.specs.declared.packet.Packet.{Packet};
ghost use Rattle.message.specs.Spelling.{message_bytes};
ghost use Rattle.message.specs.declared.message.Message.{Message};
ghost use Rattle.script.specs.Numbers.{number_in};
ghost use Rattle.cluster_law.specs.declared.step.Halt.{Halt};
ghost use Rattle.cluster_law.specs.declared.step.TraceStep.{TraceStep};
ghost use Rattle.trace_text.specs.Entries.{answer_line, entry_line};
ghost use Rattle.trace_text.specs.Kinds.{HasCall, HasNames, HasReply, first_word, is_plain};
ghost use Rattle.trace_text.specs.Names.{name_of};
ghost use Rattle.trace_text.specs.Packets.{body_name, packet_line};
ghost use Rattle.trace_text.specs.Runs.{end_line, refused_line, run_line, settled_line};
ghost use Rattle.trace_text.specs.Sectors.{write_line};
ghost use Rattle.trace_text.specs.Serving.{halt_line, head_line};
ghost use Rattle.trace_text.specs.Steps.{step_line};
ghost use Rattle.trace_text.specs.declared.runs.Cause.{Cause};
ghost use Rattle.trace_text.specs.declared.runs.Settled.{Settled};
ghost use Rattle.trace_text.specs.declared.steps.Place.{Place};

/// A packet that carries the spelling of a message is told by the name of that message.
pub fn a_message_has_its_name()
    ensures { (message : Message) → body_name (message_bytes message) ≡ name_of message }
{}

/// Each line of a step begins with the word of its kind, by which it is told from those of other kinds.
pub fn a_step_line_has_its_word()
    ensures step { (place : Place) (step : TraceStep) → first_word (step_line place step) ≡ codes "step" }
    ensures write { (write : ℕ × List ℕ) → first_word (write_line write) ≡ codes "write" }
    ensures entry_text { (one : Entry) → first_word (entry_line one) ≡ codes "entry" }
    ensures send { (number : ℕ) (packet : Packet) → first_word (packet_line number packet) ≡ codes "send" }
    ensures answer { (client : ClientId) (number : ℕ) (reply : Reply) → first_word (answer_line client number reply) ≡ codes "ans" }
    ensures head { (block : Block) → first_word (head_line block) ≡ codes "head" }
    ensures halt { (node : Option NodeId) (halt : Halt) → first_word (halt_line node halt) ≡ codes "halt" }
{}

/// Each line that is no step's begins with the word of its kind.
pub fn another_line_has_its_word()
    ensures run { (clients window : ℕ) → first_word (run_line clients window) ≡ codes "run" }
    ensures refused { (number : ℕ) (cause : Cause) → first_word (refused_line number cause) ≡ codes "refused" }
    ensures settled { (number cycles : ℕ) (how : Settled) → first_word (settled_line number cycles how) ≡ codes "settled" }
    ensures end { (steps : ℕ) → first_word (end_line steps) ≡ codes "end" }
{}

/// No line of a step has a line feed in it, so that a text is cut into its lines at its line feeds. That asks
/// of a call that a script can spell it, and of a list of names that it has names alone.
pub fn a_step_line_has_no_line_feed()
    ensures step { (place : Place) (step : TraceStep) → HasCall step.event → is_plain (step_line place step) ≡ true }
    ensures write { (write : ℕ × List ℕ) → is_plain (write_line write) ≡ true }
    ensures entry_text { (one : Entry) → HasReply one → is_plain (entry_line one) ≡ true }
    ensures send { (number : ℕ) (packet : Packet) → is_plain (packet_line number packet) ≡ true }
    ensures answer { (client : ClientId) (number : ℕ) (reply : Reply) → HasNames reply → is_plain (answer_line client number reply) ≡ true }
    ensures head { (block : Block) → is_plain (head_line block) ≡ true }
    ensures halt { (node : Option NodeId) (halt : Halt) → is_plain (halt_line node halt) ≡ true }
{}

/// A number of 64 bits is read back from its text.
pub fn a_number_is_read_back()
    ensures { (number : ℕ) → number < 2 ^ 64 → number_in 0 18446744073709551615 (decimal number) ≡ Ok number }
{}
