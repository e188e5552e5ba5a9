//! What programs that read files of text share: the form of a file and its units, words of the command line, messages,
//! and text that is safe on a terminal.
#![tactic(auto)]

mod beginning;
mod code_pages;
mod document;
mod form;
mod outcome;
mod program;
mod shown;
mod words;

pub use beginning::{bom_len, looks_like, scheme_by_bom};
pub use code_pages::CodePage;
pub use document::{BadBytes, Document, encode_units};
pub use form::{Form, NoForm, form_named, form_of, name_of, scheme_named};
pub use outcome::{Outcome, Place};
pub use program::{Program, run};
pub use shown::{Quoted, Shown, ShownText, is_hidden};
pub use words::{OptionWord, Refusal, Words, files_of, option_of_letter, words_of};
