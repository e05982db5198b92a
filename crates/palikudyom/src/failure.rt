// Says on standard error why a file or a stream could not be read or written.
use std::fmt::InlineText;
use std::io;

// An error's text without the number that std puts after what the system says.
fn without_number(text: &str) -> &str {
    text.split_once(" (os error ")
        .map_or(text, |(words, _)| words)
}

// Writes a line: what failed, a colon and what the system says of it.
pub(crate) fn tell(rt: &HostRuntime, what: &[u8], error: io::Error) {
    let text = InlineText::<128>::of(error);
    let stderr = rt.stderr();
    let _ = stderr.write_all(what);
    let _ = stderr.write_all(b": ");
    let _ = stderr.println(without_number(text.as_str()));
}
