//! Stored texts.

use crate::given::{bytes, mark, plan};
use crate::same::{Sure, holds_in, same_in};
use pin_driver::{TextError, read_stored, stored_text};

const TEXT: &[u8] = b"mdbal_pins 1
plan plan\\0407
mark 2 1
changes 2
change 100 - 1 60 /a
change - 2 - 50 /b\\040\\134\\012\\377
pins 1
pin - 2 /b\\040\\134\\012\\377
end
";

#[test]
fn a_text_is_written_and_read(rt: HostRuntime) {
    let alloc = rt.alloc();
    let plan = plan(&rt, alloc);
    let text = stored_text(alloc, &plan, mark(2, 1)).sure(&rt);
    assert!(rt; text.as_slice() == TEXT);
    let found = read_stored(alloc, text.as_slice()).sure(&rt);
    assert!(rt; found.mark == mark(2, 1));
    let again = stored_text(alloc, &found.plan, found.mark).sure(&rt);
    assert!(rt; again.as_slice() == TEXT);
}

/// Texts that are refused.
const REFUSED: &[(&[u8], TextError)] = &[
    (b"", TextError::Form),
    (b"mdbal_pins 2\nplan x\n", TextError::Version(2)),
    (b"mdbal_pins 18446744073709551616\n", TextError::Form),
    (
        b"mdbal_pins 01\nplan \nmark 0 0\nchanges 0\npins 0\nend\n",
        TextError::Form,
    ),
    (
        b"mdbal_pins 1\nplan \nmark 0 0\nchanges 0\npins 0\nend",
        TextError::Form,
    ),
    (
        b"mdbal_pins 1\nplan \nmark 1 0\nchanges 0\npins 0\nend\n",
        TextError::Form,
    ),
    (
        b"mdbal_pins 1\nplan \nmark 0 0\nchanges 0\npins 0\nend\n\n",
        TextError::Form,
    ),
    (
        b"mdbal_pins 1\nplan \\1\nmark 0 0\nchanges 0\npins 0\nend\n",
        TextError::Form,
    ),
    (
        b"mdbal_pins 1\nplan a\nmark 0 0\nchanges 1\nchange - 64 - 0 /\npins 0\nend\n",
        TextError::Form,
    ),
];

#[test]
fn other_texts_are_refused(rt: HostRuntime) {
    for row in REFUSED {
        let cause = match read_stored(rt.alloc(), row.0) {
            Ok(_) => None,
            Err(cause) => Some(cause),
        };
        same_in(&rt, &cause, &Some(row.1), row);
    }
}

/// No beginning of a text is one.
#[test]
fn each_byte_counts(rt: HostRuntime) {
    for end in 0..TEXT.len() {
        holds_in(&rt, read_stored(rt.alloc(), &TEXT[..end]).is_err(), &end);
    }
}
