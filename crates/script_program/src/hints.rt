//! What is said on standard error of a line that isn't accepted.

use arrayvec::ArrayString;
use script_commands::Hint;
use script_engine::write_whole;
use script_session::Hints;
use std::fmt::Write as _;
use std::io::Write;

/// The most bytes of a hint's line.
const HINT_LIMIT: usize = 320;

/// Says each fault by one line, unless it is to be quiet. A write that fails changes nothing.
pub struct LineHints<'e, E> {
    pub errors: &'e mut E,
    pub quiet: bool,
}

impl<E: Write> Hints for LineHints<'_, E> {
    fn faulty_line(&mut self, number: u64, hint: &Hint<'_>) {
        if self.quiet {
            return;
        }
        let mut text = ArrayString::<HINT_LIMIT>::new();
        if writeln!(text, "mdbal: line {number}: {hint}").is_ok() {
            let _ = write_whole(self.errors, text.as_str().as_bytes());
        }
    }
}
