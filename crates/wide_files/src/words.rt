//! The arguments of a program: options, and then words.

use crate::shown::ShownText;
use std::fmt;
use std::iter::once;

/// An option of a program.
#[derive(Clone, Copy)]
pub struct OptionWord {
    /// Its name, with its dashes.
    pub name: &'static str,
    /// Whether an argument after it is its value.
    pub has_value: bool,
}

/// Why a program can't do what its arguments ask for.
#[derive(Clone, Copy)]
pub enum Refusal<'a> {
    /// There is no such option.
    UnknownOption(&'a str),
    /// The option needs another argument after it.
    NoValue(&'a str),
    /// The option has no such value.
    WrongValue(&'a str, &'a str),
    /// A word of this kind is missing.
    NoWord(&'static str),
    /// A word is nothing of this kind.
    WrongWord(&'a str, &'static str),
    /// The word is one too many.
    ExtraWord(&'a str),
}

impl fmt::Display for Refusal<'_> {
    fn fmt<W: fmt::Write>(&self, f: &mut fmt::Formatter<W>) -> fmt::Result {
        match self {
            Refusal::UnknownOption(word) => write!(f, "unknown option '{}'", ShownText(word)),
            Refusal::NoValue(word) => write!(f, "'{}' needs an argument", ShownText(word)),
            Refusal::WrongValue(word, value) => {
                let (word, value) = (ShownText(word), ShownText(value));
                write!(f, "'{word}' has no value '{value}'")
            }
            Refusal::NoWord(kind) => write!(f, "{kind} is missing"),
            Refusal::WrongWord(word, kind) => write!(f, "'{}' is no {kind}", ShownText(word)),
            Refusal::ExtraWord(word) => write!(f, "'{}' is one word too many", ShownText(word)),
        }
    }
}

/// What an argument is.
pub enum Words<'a> {
    /// The option of this index, its name, its value or an empty one, and the arguments after it.
    Option(usize, &'a str, &'a str, &'a [String]),
    /// Options of one letter in one argument, without the dash, and the arguments after it.
    Letters(&'a str, &'a [String]),
    /// No more options: the words.
    Rest(&'a [String]),
    /// An argument that is refused.
    Refused(Refusal<'a>),
}

// Returns the index of the option with this name, and whether it has a value.
fn option_named(options: &[OptionWord], name: &str) -> Option<(usize, bool)> {
    for (index, option) in options.iter().enumerate() {
        if option.name == name {
            return Some((index, option.has_value));
        }
    }
    None
}

// Returns whether an argument is written as an option: `-1500`, `+1500` and `-` are not.
fn is_option(argument: &str) -> bool {
    let mut chars = argument.chars();
    chars.next() == Some('-') && chars.next().is_some_and(|c| !c.is_ascii_digit())
}

/// Returns the index of the option whose name is a dash and this letter, if it has no value.
pub fn option_of_letter(options: &[OptionWord], letter: char) -> Option<usize> {
    options.iter().position(|option| {
        !option.has_value
            && option
                .name
                .strip_prefix('-')
                .is_some_and(|name| name.chars().eq(once(letter)))
    })
}

// Returns the letters of an argument such as `-ni`, if each of them is an option.
fn letters_of<'a>(options: &[OptionWord], argument: &'a str) -> Option<&'a str> {
    let letters = argument.strip_prefix('-')?;
    if letters
        .chars()
        .all(|letter| option_of_letter(options, letter).is_some())
    {
        Some(letters)
    } else {
        None
    }
}

/// Returns the words, which are files.
///
/// # Errors
///
/// If there are none.
pub fn files_of(words: &[String]) -> Result<&[String], Refusal<'_>> {
    if words.is_empty() {
        Err(Refusal::NoWord("FILE"))
    } else {
        Ok(words)
    }
}

/// Returns what the arguments begin with. `--` ends the options.
pub fn words_of<'a>(options: &[OptionWord], arguments: &'a [String]) -> Words<'a> {
    let [argument, others @ ..] = arguments else {
        return Words::Rest(arguments);
    };
    let argument = argument.as_str();
    if argument == "--" {
        return Words::Rest(others);
    }
    if !is_option(argument) {
        return Words::Rest(arguments);
    }
    let Some((index, has_value)) = option_named(options, argument) else {
        return match letters_of(options, argument) {
            Some(letters) => Words::Letters(letters, others),
            None => Words::Refused(Refusal::UnknownOption(argument)),
        };
    };
    if !has_value {
        return Words::Option(index, argument, "", others);
    }
    match others {
        [value, rest @ ..] => Words::Option(index, argument, value.as_str(), rest),
        [] => Words::Refused(Refusal::NoValue(argument)),
    }
}
