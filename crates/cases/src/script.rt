// The lines of a script.
use std::alloc::{AllocError, Global};
use text::bytes;

#[derive(Drop)]
pub enum Command {
    Blank,
    Comment,
    // Forget all that was fitted.
    Node,
    // Fit a code with a sheet.
    Fit(Vec<u8>, Vec<u8>),
}

// Bytes in hexadecimal, or a dash for none.
fn field(heap: Global, text: &str) -> Result<Option<Vec<u8>>, AllocError> {
    let text = if text == "-" { "" } else { text };
    bytes(heap, text.as_bytes())
}

// The code and the sheet after the word `fit`.
fn fit(heap: Global, fields: &str) -> Result<Option<Command>, AllocError> {
    // A line that is not understood is no error, as the script goes on after it.
    let Some((code, sheet)) = fields.split_once(' ') else {
        return Ok(None);
    };
    let both = field(heap, code)?.zip(field(heap, sheet)?);
    Ok(both.map(|(code, sheet)| Command::Fit(code, sheet)))
}

// Reads a line, if it is understood. Each form is told by a test of its own.
pub fn read(heap: Global, line: &str) -> Result<Option<Command>, AllocError> {
    if line.is_empty() {
        return Ok(Some(Command::Blank));
    }
    if line.starts_with('#') {
        return Ok(Some(Command::Comment));
    }
    if line == "node" {
        return Ok(Some(Command::Node));
    }
    match line.strip_prefix("fit ") {
        Some(fields) => fit(heap, fields),
        None => Ok(None),
    }
}
