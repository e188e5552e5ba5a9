//! What the arguments ask for.

ghost use Rattle.std.specs.Prelude.{◌≤◌, length};
ghost use Rattle.wideconv_command.specs.Requests.{IsWithin};

use std::fmt;
use wide_files::scheme_named;
use wide_forms::Policy;
use wide_schemes::Scheme;

/// Texts to convert or to look at.
#[derive(Clone, Copy)]
pub struct Request<'a> {
    /// The scheme of the texts, or `None` if their BOM decides.
    pub from: Option<Scheme>,
    /// The scheme that is written.
    pub to: Option<Scheme>,
    /// What is written for faults, or `None` if the first one is an error.
    pub policy: Option<Policy>,
    /// Whether a BOM is written.
    pub bom: bool,
    /// Whether each fault is reported, and nothing is written.
    pub check: bool,
    /// Whether the units, characters, lines and faults are counted, and nothing is written.
    pub stats: bool,
    /// The file that is written, or `None` for standard output.
    pub output: Option<&'a str>,
}

impl<'a> Request<'a> {
    // Returns the request of no options.
    fn new() -> Request<'a> {
        Request {
            from: None,
            to: None,
            policy: None,
            bom: false,
            check: false,
            stats: false,
            output: None,
        }
    }
}

/// What the arguments ask for.
#[derive(Clone, Copy)]
pub enum Asked<'a> {
    /// To convert files, or standard input if there are none, or to look at them.
    Texts(Request<'a>, &'a [String]),
    /// To list the schemes.
    List,
    /// To describe the options.
    Help,
    /// To print the version.
    Version,
}

/// Why the arguments ask for nothing.
#[derive(Clone, Copy)]
pub enum Refusal<'a> {
    /// There is no such option.
    UnknownOption(&'a str),
    /// The option needs another argument after it.
    NoValue(&'a str),
    /// There is no scheme with this name.
    UnknownForm(&'a str),
    /// Nothing says which scheme to write.
    NoTarget,
    /// An option of texts that are written stands beside one of texts that are only read.
    Mixed,
    /// An option stands behind a file.
    LateOption(&'a str),
}

impl fmt::Display for Refusal<'_> {
    fn fmt<W: fmt::Write>(&self, f: &mut fmt::Formatter<W>) -> fmt::Result {
        match self {
            Refusal::UnknownOption(word) => write!(f, "unknown option '{word}'"),
            Refusal::NoValue(word) => write!(f, "'{word}' needs an argument"),
            Refusal::UnknownForm(word) => write!(f, "unknown form '{word}' (-l lists them)"),
            Refusal::NoTarget => f.write_str("no form to write: -t FORM"),
            Refusal::Mixed => f.write_str("--check and --stats write no text"),
            Refusal::LateOption(word) => write!(f, "'{word}' stands behind a file"),
        }
    }
}

// An option.
#[derive(Clone, Copy)]
enum Word {
    From,
    To,
    Output,
    Lossy(Policy),
    Bom,
    Check,
    Stats,
    Files,
    List,
    Help,
    Version,
}

// Each option.
static WORDS: [(&str, Word); 16] = [
    ("-f", Word::From),
    ("-t", Word::To),
    ("-o", Word::Output),
    ("--lossy", Word::Lossy(Policy::Each)),
    ("--lossy=each", Word::Lossy(Policy::Each)),
    ("--lossy=run", Word::Lossy(Policy::Run)),
    ("--lossy=skip", Word::Lossy(Policy::Skip)),
    ("--bom", Word::Bom),
    ("--check", Word::Check),
    ("--stats", Word::Stats),
    ("--", Word::Files),
    ("-l", Word::List),
    ("--list", Word::List),
    ("-h", Word::Help),
    ("--help", Word::Help),
    ("--version", Word::Version),
];

// Returns the option that is this argument, or `None` if none is.
fn word_named(argument: &str) -> Option<Word> {
    for (name, word) in &WORDS {
        if *name == argument {
            return Some(*word);
        }
    }
    None
}

// Returns the request with this option as well.
fn with_word<'a>(request: Request<'a>, word: Word) -> Request<'a> {
    match word {
        Word::Lossy(policy) => Request {
            policy: Some(policy),
            ..request
        },
        Word::Bom => Request {
            bom: true,
            ..request
        },
        Word::Check => Request {
            check: true,
            ..request
        },
        Word::Stats => Request {
            stats: true,
            ..request
        },
        _ => request,
    }
}

// Returns the request with this option and the argument after it.
fn with_value<'a>(
    request: Request<'a>,
    word: Word,
    value: &'a str,
) -> Result<Request<'a>, Refusal<'a>> {
    if let Word::Output = word {
        return Ok(Request {
            output: Some(value),
            ..request
        });
    }
    let Some(scheme) = scheme_named(value) else {
        return Err(Refusal::UnknownForm(value));
    };
    Ok(match word {
        Word::From => Request {
            from: Some(scheme),
            ..request
        },
        _ => Request {
            to: Some(scheme),
            ..request
        },
    })
}

// Returns the first argument that is an option, if there is one. `-` is standard input.
fn late_option(files: &[String]) -> Option<&str> {
    for file in files {
        if file.as_str().len() > 1 && file.as_str().starts_with('-') {
            return Some(file.as_str());
        }
    }
    None
}

// Returns what a request of these files asks for.
fn with_files<'a>(
    request: Request<'a>,
    files: &'a [String],
    after_dashes: bool,
) -> Result<Asked<'a>, Refusal<'a>> {
    let examines = request.check || request.stats;
    let writes = request.to.is_some() || request.output.is_some();
    if examines && (writes || request.policy.is_some() || request.bom) {
        return Err(Refusal::Mixed);
    }
    if request.to.is_none() && !examines {
        return Err(Refusal::NoTarget);
    }
    if !after_dashes {
        if let Some(word) = late_option(files) {
            return Err(Refusal::LateOption(word));
        }
    }
    Ok(Asked::Texts(request, files))
}

// What an argument is.
enum Step<'a> {
    // An option of this many arguments, with which the request is this one.
    Option(Request<'a>, usize),
    // The last argument that matters.
    Last(Result<Asked<'a>, Refusal<'a>>),
}

// Returns what the first of the arguments is that follow those of a request.
fn next_step<'a>(request: Request<'a>, rest: &'a [String]) -> Step<'a>
    ensures { IsWithin (length rest.now) result }
{
    let [argument, others @ ..] = rest else {
        return Step::Last(with_files(request, rest, false));
    };
    let argument = argument.as_str();
    match word_named(argument) {
        None if argument.len() > 1 && argument.starts_with('-') => {
            Step::Last(Err(Refusal::UnknownOption(argument)))
        }
        None => Step::Last(with_files(request, rest, false)),
        Some(Word::List) => Step::Last(Ok(Asked::List)),
        Some(Word::Help) => Step::Last(Ok(Asked::Help)),
        Some(Word::Version) => Step::Last(Ok(Asked::Version)),
        Some(Word::Files) => Step::Last(with_files(request, others, true)),
        Some(word @ (Word::From | Word::To | Word::Output)) => match others {
            [value, ..] => match with_value(request, word, value.as_str()) {
                Ok(request) => Step::Option(request, 2),
                Err(refusal) => Step::Last(Err(refusal)),
            },
            [] => Step::Last(Err(Refusal::NoValue(argument))),
        },
        Some(word) => Step::Option(with_word(request, word), 1),
    }
}

/// Returns what the arguments ask for. The options come before the files, and the last one of a kind counts.
///
/// # Errors
///
/// Why they ask for nothing.
pub fn parse(arguments: &[String]) -> Result<Asked<'_>, Refusal<'_>> {
    let mut request = Request::new();
    let mut at = 0;
    for _ in 0..arguments.len() {
        match next_step(request, &arguments[at..]) {
            Step::Option(next, count) => {
                request = next;
                at += count;
            }
            Step::Last(answer) => return answer,
        }
    }
    with_files(request, &arguments[at..], false)
}
