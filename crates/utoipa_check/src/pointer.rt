//! The text of a pointer: a JSON Pointer (RFC 6901), as it is and as it is shown on a line among others.
ghost use Rattle.std.specs.Fmt.{WritesOnOk};
ghost use Rattle.std.specs.Prelude.{[], Some, decimal};
ghost use Rattle.utoipa_check.specs.Pointers.{escaped_char, escaped, step_text, pointer_text, shown_escaped_char, shown_pointer};
ghost use Rattle.utoipa_check.specs.Shown.{shown};
ghost use Rattle.utoipa_check.specs.Views.{step_of, outwards};

use crate::misfit::{Pointer, Step};
use crate::shown::ShownChar;
use std::fmt;

/// A letter of a name, as a JSON Pointer has it: `~0` for `~`, and `~1` for `/`.
#[derive(Clone, Copy, Drop)]
struct EscapedChar(char);

impl fmt::Display for EscapedChar {
    ghost output = { λ x. Some (escaped_char x.0) };

    fn fmt<W: fmt::Write>(&self, f: &mut fmt::Formatter<W>) -> fmt::Result {
        match self.0 {
            '~' => write!(f, "~0"),
            '/' => write!(f, "~1"),
            other => write!(f, "{other}"),
        }
    }
}

/// Writes a name, as a JSON Pointer has it.
fn write_name<W: fmt::Write>(f: &mut fmt::Formatter<W>, name: &str) -> fmt::Result
    ensures { WritesOnOk W.write_str_gives f.old result (escaped name.now) f.new }
{
    for c in name.chars() {
        let letter = EscapedChar(c);
        write!(f, "{letter}")?;
    }
    Ok(())
}

/// The text of a step in a JSON Pointer, without the `/` before it.
impl fmt::Display for Step<'_> {
    ghost output = { λ x. Some (step_text (step_of x)) };

    fn fmt<W: fmt::Write>(&self, f: &mut fmt::Formatter<W>) -> fmt::Result {
        match self {
            Step::Name(name) => write_name(f, name),
            Step::Index(index) => write!(f, "{index}"),
        }
    }
}

/// The JSON Pointer: each step after a `/`, from the first to the last.
impl fmt::Display for Pointer<'_> {
    ghost output = { λ x. Some (pointer_text (outwards x.steps.items [])) };

    fn fmt<W: fmt::Write>(&self, f: &mut fmt::Formatter<W>) -> fmt::Result {
        let mut left = self.steps.len();
        'steps: while left > 0 {
            left -= 1;
            let step = self.steps[left];
            write!(f, "/{step}")?;
        }
        Ok(())
    }
}

/// A letter of a name, as a JSON Pointer has it, shown.
#[derive(Clone, Copy, Drop)]
struct ShownEscapedChar(char);

impl fmt::Display for ShownEscapedChar {
    ghost output = { λ x. Some (shown_escaped_char x.0) };

    fn fmt<W: fmt::Write>(&self, f: &mut fmt::Formatter<W>) -> fmt::Result {
        let letter = self.0;
        if letter == '~' || letter == '/' {
            let letter = EscapedChar(letter);
            write!(f, "{letter}")
        } else {
            let letter = ShownChar(letter);
            write!(f, "{letter}")
        }
    }
}

/// Writes a name, as a JSON Pointer has it, shown.
fn write_shown_name<W: fmt::Write>(f: &mut fmt::Formatter<W>, name: &str) -> fmt::Result
    ensures { WritesOnOk W.write_str_gives f.old result (shown (escaped name.now)) f.new }
{
    for c in name.chars() {
        let letter = ShownEscapedChar(c);
        write!(f, "{letter}")?;
    }
    Ok(())
}

/// Writes an index, in which nothing is hidden.
fn write_shown_index<W: fmt::Write>(f: &mut fmt::Formatter<W>, index: usize) -> fmt::Result
    ensures { WritesOnOk W.write_str_gives f.old result (shown (decimal index)) f.new }
{
    write!(f, "{index}")
}

/// The text of a step, as it is shown.
#[derive(Clone, Copy, Drop)]
struct ShownStep<'a>(Step<'a>);

impl fmt::Display for ShownStep<'_> {
    ghost output = { λ x. Some (shown (step_text (step_of x.0))) };

    fn fmt<W: fmt::Write>(&self, f: &mut fmt::Formatter<W>) -> fmt::Result {
        match self.0 {
            Step::Name(name) => write_shown_name(f, name),
            Step::Index(index) => write_shown_index(f, index),
        }
    }
}

/// A JSON Pointer, as it is shown on a line among others: each step, shown, after a `/`.
#[derive(Clone, Copy, Drop)]
pub struct ShownPointer<'p, 'a>(pub &'p Pointer<'a>);

impl fmt::Display for ShownPointer<'_, '_> {
    ghost output = { λ x. Some (shown_pointer (outwards x.0.now.steps.items [])) };

    fn fmt<W: fmt::Write>(&self, f: &mut fmt::Formatter<W>) -> fmt::Result {
        let pointer = self.0;
        let mut left = pointer.steps.len();
        'steps: while left > 0 {
            left -= 1;
            let step = ShownStep(pointer.steps[left]);
            write!(f, "/{step}")?;
        }
        Ok(())
    }
}
