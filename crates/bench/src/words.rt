//! The words that the program is given, and the lines that it prints.

use std::io::{self, Write};

/// The word at a place, or an empty one.
pub fn word_at(words: &[String], place: usize) -> &str {
    match words.get(place) {
        Some(word) => word.as_str(),
        None => "",
    }
}

/// The number at a place, or 0.
pub fn number_at(words: &[String], place: usize) -> u32 {
    word_at(words, place).parse().unwrap_or(0)
}

/// Prints a name and a number in a line.
pub fn print<W: Write>(out: &mut W, name: &str, number: u64) -> io::Result<()> {
    writeln!(out, "{name} {number}")
}
