//! Numbers and paths as they are written.
ghost use Rattle.std.specs.Prelude.{◌≡◌, ◌≤◌, ◌++◌, [], OnOk};
ghost use Rattle.std.specs.List.{flat_map};
ghost use Rattle.std.specs.Str.{is_utf8};
ghost use Rattle.ceph_snapshot.specs.Shown.{shown_byte, shown_path};
ghost use Rattle.ceph_report.specs.Text.{columns, comma, field, heat_text, hex_digit, hexadecimal, json_byte};
ghost use Rattle.ceph_report.specs.Text.{hex_string, json_string, path_value, per_mille, per_mille_above};
ghost use Rattle.ceph_report.specs.Text.{percent_text, truth};

use itoa::Buffer;
use std::alloc::AllocError;

/// Adds a text.
pub(crate) fn push_text(text: &mut Vec<u8>, more: &str) -> Result<(), AllocError>
    ensures { OnOk result (text.new.items ≡ text.old.items ++ more.now) }
{
    text.extend_from_slice(more.as_bytes())
}

/// Adds a label and a number.
#[tactic(auto, unfolding(crate::specs::Text::field))]
pub(crate) fn push_number(text: &mut Vec<u8>, label: &str, number: u64) -> Result<(), AllocError>
    ensures { OnOk result (text.new.items ≡ text.old.items ++ field label.now number) }
{
    let mut buffer = Buffer::new();
    text.extend_from_slice(label.as_bytes())?;
    text.extend_from_slice(buffer.format(number).as_bytes())
}

/// What fills columns.
const BLANK: &[u8] = b"            ";

/// Adds a number at the right of `width` columns, 12 at most.
#[tactic(auto, unfolding(crate::specs::Text::columns))]
pub(crate) fn push_columns(text: &mut Vec<u8>, number: u64, width: usize) -> Result<(), AllocError>
    requires { width ≤ 12 }
    ensures { OnOk result (text.new.items ≡ text.old.items ++ columns width number) }
{
    let mut buffer = Buffer::new();
    let digits = buffer.format(number).as_bytes();
    text.extend_from_slice(&BLANK[..width.saturating_sub(digits.len())])?;
    text.extend_from_slice(digits)
}

/// Adds a label, and a heat that is given in thousandths, with one digit after the point, in twelve columns.
#[tactic(auto, unfolding(crate::specs::Text::heat_text))]
pub(crate) fn push_heat(text: &mut Vec<u8>, label: &str, heat: u64) -> Result<(), AllocError>
    ensures { OnOk result (text.new.items ≡ text.old.items ++ heat_text label.now heat) }
{
    push_text(text, label)?;
    push_columns(text, heat / 1000, 10)?;
    push_number(text, ".", heat % 1000 / 100)
}

/// A part of a whole in tenths of a percent, rounded down; 0 where the whole is 0.
#[tactic(auto, unfolding(crate::specs::Text::per_mille))]
pub(crate) fn per_mille(part: u64, whole: u64) -> u64
    ensures { result ≡ per_mille part whole }
{
    if whole == 0 {
        return 0;
    }
    part.saturating_mul(1000) / whole
}

/// A part of a whole in tenths of a percent, rounded up; 0 where the whole is 0.
#[tactic(auto, unfolding(crate::specs::Text::per_mille_above))]
pub(crate) fn per_mille_above(part: u64, whole: u64) -> u64
    ensures { result ≡ per_mille_above part whole }
{
    if whole == 0 {
        return 0;
    }
    let tenths = (u128::from(part) * 1000 + u128::from(whole - 1)) / u128::from(whole);
    u128::from(u64::MAX).min(tenths) as u64
}

/// Adds a label, and tenths of a percent.
#[tactic(auto, unfolding(crate::specs::Text::percent_text))]
pub(crate) fn push_percent(text: &mut Vec<u8>, label: &str, tenths: u64) -> Result<(), AllocError>
    ensures { OnOk result (text.new.items ≡ text.old.items ++ percent_text label.now tenths) }
{
    push_number(text, label, tenths / 10)?;
    push_number(text, ".", tenths % 10)?;
    push_text(text, " %")
}

/// Adds a byte of a path.
#[tactic(auto, unfolding(ceph_snapshot::specs::Shown::shown_byte))]
fn push_shown(text: &mut Vec<u8>, byte: u8) -> Result<(), AllocError>
    ensures { OnOk result (text.new.items ≡ text.old.items ++ shown_byte byte) }
{
    match byte {
        b' '..=b'[' | b']'..=b'~' => {
            text.push(byte)?;
            Ok(())
        }
        other => text.extend_from_slice(&[
            b'\\',
            b'0' + other / 64,
            b'0' + other / 8 % 8,
            b'0' + other % 8,
        ]),
    }
}

/// Adds a path in ASCII: other bytes, and backslashes, as a backslash and three octal digits. The root is `/`.
#[tactic(auto, unfolding(ceph_snapshot::specs::Shown::shown_path))]
pub(crate) fn push_path(text: &mut Vec<u8>, path: &[u8]) -> Result<(), AllocError>
    ensures { OnOk result (text.new.items ≡ text.old.items ++ shown_path path.now) }
{
    if path.is_empty() {
        return push_text(text, "/");
    }
    for byte in path {
        push_shown(text, *byte)?;
    }
    Ok(())
}

/// A hexadecimal digit.
#[tactic(auto, unfolding(crate::specs::Text::hex_digit))]
fn hex_digit(digit: u8) -> u8
    requires { digit ≤ 15 }
    ensures { result ≡ hex_digit digit }
{
    if digit < 10 { b'0' + digit } else { 87 + digit }
}

/// Adds a label, and a byte as two hexadecimal digits.
#[tactic(auto, unfolding(crate::specs::Text::hexadecimal))]
pub(crate) fn push_hexadecimal(text: &mut Vec<u8>, label: &str, byte: u8) -> Result<(), AllocError>
    ensures { OnOk result (text.new.items ≡ text.old.items ++ hexadecimal label.now byte) }
{
    push_text(text, label)?;
    text.extend_from_slice(&[hex_digit(byte / 16), hex_digit(byte % 16)])
}

/// Adds a byte of a string of JSON.
#[tactic(auto, unfolding(crate::specs::Text::json_byte))]
fn push_json_byte(text: &mut Vec<u8>, byte: u8) -> Result<(), AllocError>
    ensures { OnOk result (text.new.items ≡ text.old.items ++ json_byte byte) }
{
    match byte {
        b'"' | b'\\' => text.extend_from_slice(&[b'\\', byte]),
        0..=31 => push_hexadecimal(text, "\\u00", byte),
        other => {
            text.push(other)?;
            Ok(())
        }
    }
}

/// Adds the bytes of a string of JSON.
fn push_json_bytes(text: &mut Vec<u8>, path: &[u8]) -> Result<(), AllocError>
    ensures { OnOk result (text.new.items ≡ text.old.items ++ flat_map json_byte path.now) }
{
    for byte in path {
        push_json_byte(text, *byte)?;
    }
    Ok(())
}

/// Adds two hexadecimal digits for each byte.
fn push_hex_bytes(text: &mut Vec<u8>, path: &[u8]) -> Result<(), AllocError>
    ensures { OnOk result (text.new.items ≡ text.old.items ++ flat_map (hexadecimal []) path.now) }
{
    for byte in path {
        push_hexadecimal(text, "", *byte)?;
    }
    Ok(())
}

/// Adds bytes as a string of hexadecimal digits.
#[tactic(auto, unfolding(crate::specs::Text::hex_string))]
fn push_hex_string(text: &mut Vec<u8>, path: &[u8]) -> Result<(), AllocError>
    ensures { OnOk result (text.new.items ≡ text.old.items ++ hex_string path.now) }
{
    push_text(text, "\"")?;
    push_hex_bytes(text, path)?;
    push_text(text, "\"")
}

/// Whether bytes are UTF-8.
fn is_text(bytes: &[u8]) -> bool
    ensures { result ≡ is_utf8 bytes.now }
{
    str::from_utf8(bytes).is_ok()
}

/// Adds a path after the begin of a member's name: as text where it is UTF-8, otherwise its bytes in hexadecimal
/// digits under a name that goes on with `_bytes`.
#[tactic(auto, unfolding(crate::specs::Text::path_value))]
pub(crate) fn push_path_value(text: &mut Vec<u8>, path: &[u8]) -> Result<(), AllocError>
    ensures { OnOk result (text.new.items ≡ text.old.items ++ path_value path.now) }
{
    if is_text(path) {
        push_text(text, "\":")?;
        push_string(text, path)
    } else {
        push_text(text, "_bytes\":")?;
        push_hex_string(text, path)
    }
}

/// Adds a path that is UTF-8 as a string of JSON.
#[tactic(auto, unfolding(crate::specs::Text::json_string))]
fn push_string(text: &mut Vec<u8>, path: &[u8]) -> Result<(), AllocError>
    ensures { OnOk result (text.new.items ≡ text.old.items ++ json_string path.now) }
{
    push_text(text, "\"")?;
    push_json_bytes(text, path)?;
    push_text(text, "\"")
}

/// What comes before the member of a list at this place.
#[tactic(auto, unfolding(crate::specs::Text::comma))]
pub(crate) fn comma(at: usize) -> &'static str
    ensures { result.now ≡ comma at }
{
    if at > 0 { "," } else { "" }
}

/// A truth value.
pub(crate) fn truth(is_so: bool) -> &'static str
    ensures { result.now ≡ truth is_so }
{
    if is_so { "true" } else { "false" }
}
