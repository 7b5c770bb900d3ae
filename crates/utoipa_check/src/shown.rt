//! Texts of a document and names of files, as they are shown on a line among others: no character of them ends the line, acts on a terminal or
//! turns the direction of what is seen, and the text can be had back.
ghost use Rattle.std.specs.Char.Escape.{hex_digit_at};
ghost use Rattle.std.specs.Fmt.{WritesOnOk};
ghost use Rattle.std.specs.Prelude.{◌≡◌, ◌<◌, Some};
ghost use Rattle.utoipa_check.specs.Shown as specs;

use std::fmt;

/// Whether a character may end a line, act on a terminal, or turn the direction of what is seen.
fn is_hidden(letter: char) -> bool
    ensures { result ≡ specs.is_hidden letter }
{
    letter.is_control()
        || letter == '\u{61c}'
        || (letter >= '\u{200e}' && letter <= '\u{200f}')
        || (letter >= '\u{2028}' && letter <= '\u{202e}')
        || (letter >= '\u{2066}' && letter <= '\u{2069}')
}

/// The hexadecimal digit of a character's number at the place that is worth so much.
fn digit_at(place: u32, letter: char) -> char
    requires { 0 < place }
    ensures { result ≡ hex_digit_at place letter }
{
    match char::from_digit(letter as u32 / place % 16, 16) {
        Some(digit) => digit,
        None => '0',
    }
}

/// Writes a character below U+10000 by its number.
fn write_number<W: fmt::Write>(f: &mut fmt::Formatter<W>, letter: char) -> fmt::Result
    ensures { WritesOnOk W.write_str_gives f.old result (specs.by_number letter) f.new }
{
    let first = digit_at(0x1000, letter);
    let second = digit_at(0x100, letter);
    let third = digit_at(0x10, letter);
    let fourth = digit_at(1, letter);
    write!(f, "\\u{first}{second}{third}{fourth}")
}

/// Writes a hidden character, as in a JSON string.
fn write_hidden<W: fmt::Write>(f: &mut fmt::Formatter<W>, letter: char) -> fmt::Result
    ensures { WritesOnOk W.write_str_gives f.old result (specs.hidden_char letter) f.new }
{
    match letter {
        '\n' => write!(f, "\\n"),
        '\r' => write!(f, "\\r"),
        '\t' => write!(f, "\\t"),
        '\u{8}' => write!(f, "\\b"),
        '\u{c}' => write!(f, "\\f"),
        other => write_number(f, other),
    }
}

/// A character: a hidden one as in a JSON string, and a backslash doubled.
#[derive(Clone, Copy, Drop)]
pub(crate) struct ShownChar(pub(crate) char);

impl fmt::Display for ShownChar {
    ghost output = { λ x. Some (specs.shown_char x.0) };

    fn fmt<W: fmt::Write>(&self, f: &mut fmt::Formatter<W>) -> fmt::Result {
        let letter = self.0;
        if letter == '\\' {
            write!(f, "\\\\")
        } else if is_hidden(letter) {
            write_hidden(f, letter)
        } else {
            write!(f, "{letter}")
        }
    }
}

/// Writes a text, as it is shown.
fn write_shown<W: fmt::Write>(f: &mut fmt::Formatter<W>, text: &str) -> fmt::Result
    ensures { WritesOnOk W.write_str_gives f.old result (specs.shown text.now) f.new }
{
    for letter in text.chars() {
        let letter = ShownChar(letter);
        write!(f, "{letter}")?;
    }
    Ok(())
}

/// A text of a document, or a file's name, as it is shown on a line among others.
///
/// A control character (C0, DEL, C1), a separator of lines or paragraphs (U+2028, U+2029) and a mark that turns the direction of text (U+061C,
/// U+200E, U+200F, U+202A to U+202E, U+2066 to U+2069) is written as in a JSON string, such as `\n` and `\u001b`, and a backslash is doubled. So
/// what is shown is on one line, and the text can be had back from it (`specs/Shown.antt`).
#[derive(Clone, Copy, Drop)]
pub struct Shown<'a>(pub &'a str);

impl fmt::Display for Shown<'_> {
    ghost output = { λ x. Some (specs.shown x.0.now) };

    fn fmt<W: fmt::Write>(&self, f: &mut fmt::Formatter<W>) -> fmt::Result {
        write_shown(f, self.0)
    }
}
