//! Writes blanks and a zero over bare `-inf`, `inf` and `nan`, which Ceph prints where JSON has no number.
ghost use Rattle.std.specs.Prelude.{◌≡◌, false, take};
ghost use Rattle.ceph_dumps.specs.DumpText.{HasNoBackslash, HasNoWord, IsWordless, bare_length, over_byte};
ghost use Rattle.ceph_dumps.specs.DumpText.{place_behind, quoting, word_left, word_length, written_over};
ghost use Rattle.ceph_dumps.specs.declared.bare_words.Place.TheVariants.{Bare};

use memchr::memchr;
use memchr::memmem::find;

/// Where a byte of JSON is.
#[derive(Clone, Copy)]
pub(crate) enum Place {
    /// Outside of strings.
    Bare,
    /// In a string.
    Quoted,
    /// In a string, after a backslash.
    Escaped,
}

impl Place {
    ghost use Rattle.ceph_dumps.specs.KeyPath.{place_after};

    /// Where the byte after this one is.
    pub(crate) fn after(self, byte: u8) -> Place
        ensures { result ≡ place_after self byte }
    {
        match (self, byte) {
            (Place::Bare, b'"') => Place::Quoted,
            (Place::Bare, _) => Place::Bare,
            (Place::Quoted, b'"') => Place::Bare,
            (Place::Quoted, b'\\') => Place::Escaped,
            (Place::Quoted, _) | (Place::Escaped, _) => Place::Quoted,
        }
    }
}

/// How many bytes a word has that begins here, which Ceph prints where JSON has no number.
fn word_length(text: &[u8]) -> usize
    ensures { result ≡ word_length text.now }
{
    match text.first() {
        Some(b'-') if text.starts_with(b"-inf") || text.starts_with(b"-nan") => 4,
        Some(b'i') if text.starts_with(b"inf") => 3,
        Some(b'n') if text.starts_with(b"nan") => 3,
        _ => 0,
    }
}

/// The same, where such a word begins outside of strings only.
fn bare_length(place: Place, text: &[u8]) -> usize
    ensures { result ≡ bare_length place text.now }
{
    match place {
        Place::Bare => word_length(text),
        Place::Quoted | Place::Escaped => 0,
    }
}

/// How many bytes of a word still come, where so many come of one that began before.
fn word_left(left: usize, place: Place, text: &[u8]) -> usize
    ensures { result ≡ word_left left place text.now }
{
    if left == 0 {
        bare_length(place, text)
    } else {
        left
    }
}

/// What is written over a byte of a word, where so many come after it.
fn over_byte(left: usize) -> u8
    ensures { result ≡ over_byte left }
{
    if left == 0 { b'0' } else { b' ' }
}

/// Whether `inf` or `nan` occurs anywhere, in strings or not.
pub(crate) fn may_have_words(text: &[u8]) -> bool
    ensures { result ≡ false → HasNoWord text.now }
{
    match find(text, b"inf") {
        Some(_) => true,
        None => match find(text, b"nan") {
            Some(_) => true,
            None => false,
        },
    }
}

/// How many bytes are passed over at once, where nothing is to be written over in them.
const PIECE: usize = 4096;

/// How far a word that begins in a piece may reach behind it.
const REACH: usize = 3;

/// How many of the first bytes can be passed over at once: those of a piece, or none.
fn wordless_length(text: &[u8]) -> usize
    ensures { IsWordless text.now result }
{
    if text.len() < PIECE + REACH {
        return 0;
    }
    let ahead = &text[..PIECE + REACH];
    if may_have_words(ahead) || memchr(b'\\', ahead).is_some() {
        return 0;
    }
    PIECE
}

/// Whether the byte behind these is in a string. The whole is looked at, which a processor does for many bytes at once.
fn is_quoted_behind(is_first_quoted: bool, text: &[u8]) -> bool
    ensures { HasNoBackslash text.now → place_behind (quoting is_first_quoted) text.now ≡ quoting result }
{
    let mut is_quoted = is_first_quoted;
    for byte in text {
        is_quoted = is_quoted != (*byte == b'"');
    }
    is_quoted
}

/// How many bytes can be passed over at once, and where the byte behind them is, where the first one is in a string or
/// not.
fn pass_from(is_quoted: bool, text: &[u8]) -> (usize, Place)
    ensures wordless { IsWordless text.now result.0 }
    ensures place { result.1 ≡ place_behind (quoting is_quoted) (take result.0 text.now) }
{
    let count = wordless_length(text);
    if is_quoted_behind(is_quoted, &text[..count]) {
        (count, Place::Quoted)
    } else {
        (count, Place::Bare)
    }
}

/// The same, where the first one is at this place.
fn pass_over(place: Place, text: &[u8]) -> (usize, Place)
    ensures wordless { IsWordless text.now result.0 }
    ensures place { result.1 ≡ place_behind place (take result.0 text.now) }
{
    match place {
        Place::Bare => pass_from(false, text),
        Place::Quoted => pass_from(true, text),
        Place::Escaped => (0, place),
    }
}

/// Writes over each bare word outside of strings. No byte is moved, so lines and columns stay.
pub fn write_over_bare_words(text: &mut [u8])
    ensures { text.new ≡ written_over 0 Bare text.old }
{
    let (mut place, mut left) = (Place::Bare, 0);
    let (mut at, mut looked) = (0, 0);
    while at < text.len() {
        if left == 0 && looked <= at {
            let (count, behind) = pass_over(place, &text[at..]);
            looked = at.saturating_add(PIECE);
            place = behind;
            at += count;
            continue;
        }
        let coming = word_left(left, place, &text[at..]);
        if coming == 0 {
            place = place.after(text[at]);
            left = 0;
            at += 1;
            continue;
        }
        left = coming - 1;
        text[at] = over_byte(left);
        at += 1;
    }
}
