use cal_base::{ClientId, Oom};
use cluster_law::{Answer, ClientOutput};
use row_lines::Lines;
use tree_law::Entry;

/// Puts the lines of what a step gives: its entry, its packets, its answer.
pub(crate) fn put_output(
    lines: &mut Lines,
    client: ClientId,
    output: &ClientOutput,
) -> Result<(), Oom> {
    put_entry_if(lines, &output.entry)?;
    lines.put_packets(output.sent.as_slice())?;
    put_answer_if(lines, client, &output.answer)
}

/// Puts the line of an entry, if there is one.
fn put_entry_if(lines: &mut Lines, entry: &Option<Entry>) -> Result<(), Oom> {
    match entry {
        Some(entry) => lines.put_entry(entry),
        None => Ok(()),
    }
}

/// Puts the line of an answer, if there is one.
fn put_answer_if(lines: &mut Lines, client: ClientId, answer: &Option<Answer>) -> Result<(), Oom> {
    match answer {
        Some(answer) => put_answer(lines, client, answer),
        None => Ok(()),
    }
}

/// Puts the line of an answer.
fn put_answer(lines: &mut Lines, client: ClientId, answer: &Answer) -> Result<(), Oom> {
    lines.put_client("ans ", client)?;
    lines.put_field(" ", answer.number)?;
    lines.put(" ")?;
    lines.put_reply(&answer.reply)?;
    lines.end()
}
