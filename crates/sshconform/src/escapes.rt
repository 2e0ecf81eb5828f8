//! Text of a file in a line, and in JSON.

use sshwire::TextBuffer;

/// Puts bytes in a line of text: one that is no printable character of ASCII stands as `\xNN`.
pub(crate) fn put_shown(line: &mut TextBuffer, bytes: &[u8]) {
    for byte in bytes {
        match byte {
            b' '..=b'~' => line.push(char::from(*byte)),
            _ => write!(line, "\\x{byte:02x}"),
        }
    }
}

/// Puts a text as a string of JSON (RFC 8259 section 7): a quote, a backslash and a control character are escaped.
pub(crate) fn put_string(json: &mut TextBuffer, text: &str) {
    json.push('"');
    for character in text.chars() {
        match character {
            '"' => json.push_str("\\\""),
            '\\' => json.push_str("\\\\"),
            '\u{0}'..='\u{1f}' => put_control(json, character),
            _ => json.push(character),
        }
    }
    json.push('"');
}

/// Puts a control character by its number.
fn put_control(json: &mut TextBuffer, character: char) {
    let number = u32::from(character);
    write!(json, "\\u{number:04x}");
}

/// Puts words that stand with `|` between, as an array of JSON: none where the text is empty.
pub(crate) fn put_words(json: &mut TextBuffer, words: &str) {
    json.push('[');
    if !words.is_empty() {
        put_each(json, words);
    }
    json.push(']');
}

/// Puts the words, with commas between.
fn put_each(json: &mut TextBuffer, words: &str) {
    for (place, word) in words.split('|').enumerate() {
        if place > 0 {
            json.push(',');
        }
        put_string(json, word);
    }
}

/// Puts a member of an object: its key, which needs no escape, and a string. The first of an object stands after its brace, each
/// other one after a comma.
pub(crate) fn put_member(json: &mut TextBuffer, key: &str, value: &str) {
    put_key(json, key);
    put_string(json, value);
}

/// Puts a member whose value is an array of such words.
pub(crate) fn put_array(json: &mut TextBuffer, key: &str, words: &str) {
    put_key(json, key);
    put_words(json, words);
}

/// Puts the key of a member, and what stands before and after it.
pub(crate) fn put_key(json: &mut TextBuffer, key: &str) {
    let sign = if json.is_empty() { '{' } else { ',' };
    write!(json, "{sign}\"{key}\":");
}
