//! Where a place of a JSON text is: the names of the members and the places in the lists that lead to it, as
//! `.fsmap.filesystems[0].mdsmap.max_mds`.
ghost use Rattle.std.specs.Prelude.{◌≡◌, ◌<◌, ◌≤◌, ◌++◌, ◌^◌, IfOk, OnOk, codes, decimal, length};
ghost use Rattle.std.specs.Prelude.{map, string_bytes};
ghost use Rattle.std.specs.List.{flat_map};
ghost use Rattle.ceph_dumps.specs.KeyPath.{after_bare, column_at, frame_text, key_path, line_at, meant_at};
ghost use Rattle.ceph_dumps.specs.KeyPath.{new_frame, next_of, open_at, shown_name_byte, with_last, word_after};
ghost use Rattle.ceph_dumps.specs.KeyPath.{word_text};

use crate::bare_words::Place;
use std::alloc::{AllocError, Global};

/// A string of the text: from which byte up to which.
#[derive(Clone, Copy)]
struct Word {
    from: usize,
    to: usize,
}

/// An object or a list that is open.
#[derive(Clone, Copy)]
struct Frame {
    is_list: bool,
    /// How many items of the list have ended.
    items: usize,
    /// The name of the member that the object is at; empty before it.
    name: Word,
}

/// No string.
const NO_WORD: Word = Word { from: 0, to: 0 };

/// An object or a list that begins.
fn new_frame(is_list: bool) -> Frame
    ensures { result ≡ new_frame is_list }
{
    Frame {
        is_list,
        items: 0,
        name: NO_WORD,
    }
}

/// The same after a comma.
fn next_of(frame: Frame) -> Frame
    ensures { result ≡ next_of frame }
{
    if frame.is_list {
        Frame {
            items: frame.items.saturating_add(1),
            ..frame
        }
    } else {
        new_frame(false)
    }
}

/// Goes on after a comma: to the next member or item of the innermost.
fn begin_next(frames: &mut Vec<Frame>)
    ensures { frames.new.items ≡ with_last next_of frames.old.items }
{
    let count = frames.len();
    if 0 < count {
        frames[count - 1] = next_of(frames[count - 1]);
    }
}

/// Names the member that the innermost is at.
fn name_last(frames: &mut Vec<Frame>, name: Word)
    ensures { frames.new.items ≡ with_last (λ frame. record frame { name = name }) frames.old.items }
{
    let count = frames.len();
    if 0 < count {
        let last = frames[count - 1];
        frames[count - 1] = Frame { name, ..last };
    }
}

/// Goes on after a byte outside of strings, where `word` is the last string.
fn take_bare(frames: &mut Vec<Frame>, byte: u8, word: Word) -> Result<(), AllocError>
    ensures { OnOk result (frames.new.items ≡ after_bare frames.old.items byte word) }
{
    match byte {
        b'{' => frames.push(new_frame(false))?,
        b'[' => frames.push(new_frame(true))?,
        b'}' | b']' => {
            let _ = frames.pop();
        }
        b',' => begin_next(frames),
        b':' => name_last(frames, word),
        _ => (),
    }
    Ok(())
}

/// The last string after this byte at `at`.
fn word_after(word: Word, place: Place, byte: u8, at: usize) -> Word
    requires { at < 2 ^ 63 }
    ensures { result ≡ word_after word place byte at }
{
    match place {
        Place::Bare if byte == b'"' => Word {
            from: at + 1,
            to: at + 1,
        },
        Place::Quoted => Word { to: at, ..word },
        Place::Bare | Place::Escaped => word,
    }
}

/// What is open before the byte at `end`, the outermost first.
fn open_at(alloc: Global, text: &[u8], end: usize) -> Result<Vec<Frame>, AllocError>
    requires { end ≤ length text.now }
    ensures { IfOk result (λ frames. frames.items ≡ open_at text.now end) }
{
    let mut frames = Vec::new(alloc);
    let (mut place, mut word) = (Place::Bare, NO_WORD);
    for at in 0..end {
        let byte = text[at];
        if matches!(place, Place::Bare) {
            take_bare(&mut frames, byte, word)?;
        }
        word = word_after(word, place, byte, at);
        place = place.after(byte);
    }
    Ok(frames)
}

/// The same, where no member is meant at the end of an object.
fn meant_at(alloc: Global, text: &[u8], end: usize) -> Result<Vec<Frame>, AllocError>
    requires { end ≤ length text.now }
    ensures { IfOk result (λ frames. frames.items ≡ meant_at text.now end) }
{
    let mut frames = open_at(alloc, text, end)?;
    if text.get(end).copied() == Some(b'}') {
        begin_next(&mut frames);
    }
    Ok(frames)
}

/// The bytes of a string.
fn word_text(text: &[u8], word: Word) -> &[u8]
    ensures { result.now ≡ word_text text.now word }
{
    if word.from <= word.to && word.to <= text.len() {
        &text[word.from..word.to]
    } else {
        &[]
    }
}

/// A byte of a name as it is shown: a question mark where it isn't printed ASCII.
fn shown_name_byte(byte: u8) -> u8
    ensures { result ≡ shown_name_byte byte }
{
    if matches!(byte, b'!'..=b'~') {
        byte
    } else {
        b'?'
    }
}

/// Adds a name.
fn push_name(path: &mut String, name: &[u8]) -> Result<(), AllocError>
    ensures { OnOk result (string_bytes path.new ≡ string_bytes path.old ++ map shown_name_byte name.now) }
{
    for byte in name {
        path.push(char::from(shown_name_byte(*byte)))?;
    }
    Ok(())
}

/// Adds the place in a list.
fn push_items(alloc: Global, path: &mut String, items: usize) -> Result<(), AllocError>
    ensures { OnOk result (string_bytes path.new
        ≡ string_bytes path.old ++ (codes "[" ++ (decimal items ++ codes "]"))) }
{
    let place = format!(in alloc; "[{items}]")?;
    path.push_str(place.as_str())
}

/// Adds a step of a path.
fn push_frame(alloc: Global, path: &mut String, text: &[u8], frame: Frame) -> Result<(), AllocError>
    ensures { OnOk result (string_bytes path.new ≡ string_bytes path.old ++ frame_text text.now frame) }
{
    if frame.is_list {
        return push_items(alloc, path, frame.items);
    }
    let name = word_text(text, frame.name);
    if name.is_empty() {
        return Ok(());
    }
    path.push('.')?;
    push_name(path, name)
}

/// Adds the steps of a path.
fn push_frames(
    alloc: Global,
    path: &mut String,
    text: &[u8],
    frames: &[Frame],
) -> Result<(), AllocError>
    ensures { OnOk result (string_bytes path.new
        ≡ string_bytes path.old ++ flat_map (frame_text text.now) frames.now) }
{
    for frame in frames {
        push_frame(alloc, path, text, *frame)?;
    }
    Ok(())
}

/// The path of the byte at `end` of a text; a dot for the whole.
pub fn key_path(alloc: Global, text: &[u8], end: usize) -> Result<String, AllocError>
    requires { end ≤ length text.now }
    ensures { IfOk result (λ path. string_bytes path ≡ key_path text.now end) }
{
    let frames = meant_at(alloc, text, end)?;
    let mut path = String::new(alloc);
    push_frames(alloc, &mut path, text, &frames)?;
    if path.is_empty() {
        path.push('.')?;
    }
    Ok(path)
}

/// The number of the line of the byte at `at`, from 1 on.
pub fn line_at(text: &[u8], at: usize) -> usize
    requires { at ≤ length text.now }
    ensures { result ≡ line_at text.now at }
{
    let mut line = 1usize;
    for before in 0..at {
        if text[before] == b'\n' {
            line += 1;
        }
    }
    line
}

/// The column of the byte at `at` in its line, from 1 on: each character of the text was a byte of the dump.
pub fn column_at(text: &[u8], at: usize) -> usize
    requires { at ≤ length text.now }
    ensures { result ≡ column_at text.now at }
{
    let mut column = 1usize;
    for before in 0..at {
        match text[before] {
            b'\n' => column = 1,
            128..=191 => {}
            _ => column += 1,
        }
    }
    column
}
