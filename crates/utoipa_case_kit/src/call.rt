//! The line of a case.

use crate::question::Question;

/// What a line calls: `NAME`, or `NAME WORDS`, a tab, and what the call is given.
#[derive(Clone, Copy)]
pub struct Call<'a> {
    /// The name of the call.
    pub name: &'a str,
    /// The words after the name, where there is a space after it.
    pub words: Option<&'a str>,
    /// What the call is given.
    pub given: &'a str,
}

impl<'a> Call<'a> {
    /// The call of a line. A line without a tab has none: it says what the next lines show.
    pub fn of_line(line: &'a str) -> Option<Call<'a>> {
        let Some((call, given)) = line.split_once('\t') else {
            return None;
        };
        let (name, words) = match call.split_once(' ') {
            Some((name, words)) => (name, Some(words)),
            None => (call, None),
        };
        Some(Call { name, words, given })
    }

    /// The words after the name as one text, empty where there are none: the name of a type, or a path.
    pub fn subject(&self) -> &'a str {
        self.words.unwrap_or("")
    }

    /// What the call asks of the tree that it is given, and the name of the type as which it asks that. Other calls ask nothing.
    pub fn question(&self) -> Option<(Question, &'a str)> {
        let name = self.subject();
        match self.name {
            "read" => Some((Question::Read, name)),
            "fault" => Some((Question::Fault, name)),
            "fits" => Some((Question::Fit, name)),
            "count" => Some((Question::Count, name)),
            "count-from" => question_of_least(name),
            _ => None,
        }
    }
}

// Of two words, the least number of readings and a type.
fn question_of_least(words: &str) -> Option<(Question, &str)> {
    let Some((least, name)) = words.split_once(' ') else {
        return None;
    };
    match least.parse::<u64>() {
        Ok(least) => Some((Question::CountFrom(least), name)),
        Err(_) => None,
    }
}
