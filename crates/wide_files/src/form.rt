//! The forms of files of text, and their names.

ghost use Rattle.std.specs.Prelude.{◌≡◌, ◌↔◌, ℕ, IfNone, IfOk, IfSome, IsTrue, None, Ok, Some};
ghost use Rattle.wide_files.specs.Boms.{scheme_by_bom};
ghost use Rattle.wide_files.specs.Forms.{IsSameInAnyCase, form_bom_len, name_of};
ghost use Rattle.wide_files.specs.declared.form.Form.{Form};
ghost use Rattle.wide_files.specs.declared.form.Form.TheVariants.{Unicode};
ghost use Rattle.wide_schemes.specs.declared.scheme.Scheme.{Scheme};

use crate::beginning::{bom_len, looks_like, scheme_by_bom};
use crate::code_pages::CodePage;
use std::fmt;
use wide_schemes::Scheme;

/// How a file has its text.
#[derive(Clone, Copy, Debug, PartialEq, Eq)]
pub enum Form {
    /// In an encoding scheme of Unicode.
    Unicode(Scheme),
    /// In a code page of Windows.
    Windows(CodePage),
}

// Every code page, and its name.
static CODE_PAGES: [(&str, CodePage); 10] = [
    ("CP874", CodePage::Windows874),
    ("CP1250", CodePage::Windows1250),
    ("CP1251", CodePage::Windows1251),
    ("CP1252", CodePage::Windows1252),
    ("CP1253", CodePage::Windows1253),
    ("CP1254", CodePage::Windows1254),
    ("CP1255", CodePage::Windows1255),
    ("CP1256", CodePage::Windows1256),
    ("CP1257", CodePage::Windows1257),
    ("CP1258", CodePage::Windows1258),
];

/// Returns the name of a scheme (Unicode Standard, section 3.10).
pub fn name_of(scheme: Scheme) -> &'static str
    ensures { result.now ≡ name_of scheme }
{
    match scheme {
        Scheme::Utf8 => "UTF-8",
        Scheme::Utf16 => "UTF-16",
        Scheme::Utf16Le => "UTF-16LE",
        Scheme::Utf16Be => "UTF-16BE",
        Scheme::Utf32 => "UTF-32",
        Scheme::Utf32Le => "UTF-32LE",
        Scheme::Utf32Be => "UTF-32BE",
        Scheme::Wtf8 => "WTF-8",
    }
}

// Returns whether this is the name of a scheme, in letters of either case.
fn is_named(scheme: Scheme, name: &str) -> bool
    ensures { IsTrue result ↔ IsSameInAnyCase (name_of scheme) name.now }
{
    name_of(scheme).eq_ignore_ascii_case(name)
}

/// Returns the scheme with this name, in letters of either case, or `None` if there is none.
pub fn scheme_named(name: &str) -> Option<Scheme>
    ensures named { IfSome result (λ scheme. IsSameInAnyCase (name_of scheme) name.now) }
    ensures none { IfNone result ((scheme : Scheme) → ¬ (IsSameInAnyCase (name_of scheme) name.now)) }
{
    if is_named(Scheme::Utf8, name) {
        return Some(Scheme::Utf8);
    }
    if is_named(Scheme::Utf16, name) {
        return Some(Scheme::Utf16);
    }
    if is_named(Scheme::Utf16Le, name) {
        return Some(Scheme::Utf16Le);
    }
    if is_named(Scheme::Utf16Be, name) {
        return Some(Scheme::Utf16Be);
    }
    if is_named(Scheme::Utf32, name) {
        return Some(Scheme::Utf32);
    }
    if is_named(Scheme::Utf32Le, name) {
        return Some(Scheme::Utf32Le);
    }
    if is_named(Scheme::Utf32Be, name) {
        return Some(Scheme::Utf32Be);
    }
    if is_named(Scheme::Wtf8, name) {
        return Some(Scheme::Wtf8);
    }
    None
}

/// Returns the form with this name, in letters of either case, or `None` if there is none. A code page has a name such
/// as `CP1252`.
pub fn form_named(name: &str) -> Option<Form> {
    if let Some(scheme) = scheme_named(name) {
        return Some(Form::Unicode(scheme));
    }
    for (known, page) in &CODE_PAGES {
        if known.eq_ignore_ascii_case(name) {
            return Some(Form::Windows(*page));
        }
    }
    None
}

/// A file has no BOM, and looks like this scheme, or like no form of Unicode.
#[derive(Clone, Copy, Debug, PartialEq, Eq)]
pub struct NoForm(pub Option<Scheme>);

impl fmt::Display for NoForm {
    fn fmt<W: fmt::Write>(&self, f: &mut fmt::Formatter<W>) -> fmt::Result {
        match self.0 {
            Some(scheme) => {
                let name = name_of(scheme);
                write!(
                    f,
                    "no BOM, and it looks like {name}, which --form {name} reads"
                )
            }
            None => f.write_str(
                "no BOM, and it looks like no form of Unicode; --form FORM says what it is",
            ),
        }
    }
}

/// Returns the form of a file, and the length of its BOM in bytes if that is to be passed. The form that is asked for is
/// taken, or else that of the BOM, or else the usual one if the file looks like it.
///
/// # Errors
///
/// What the file looks like.
pub fn form_of(bytes: &[u8], asked: Option<Form>, usual: Scheme) -> Result<(Form, usize), NoForm>
    ensures asked { (form : Form) → asked ≡ Some form → result ≡ Ok (form, form_bom_len form bytes.now) }
    ensures bom { (found : Scheme × ℕ) → asked ≡ None → scheme_by_bom bytes.now ≡ Some found → result ≡ Ok (Unicode found.0, found.1) }
    ensures no_bom { asked ≡ None → scheme_by_bom bytes.now ≡ None → IfOk result (λ found. found ≡ (Unicode usual, 0)) }
{
    if let Some(form) = asked {
        let len = match form {
            Form::Unicode(scheme) => bom_len(bytes, scheme),
            Form::Windows(_) => 0,
        };
        return Ok((form, len));
    }
    if let Some((scheme, len)) = scheme_by_bom(bytes) {
        return Ok((Form::Unicode(scheme), len));
    }
    let like = looks_like(bytes);
    if bytes.is_empty() || like == Some(usual) {
        return Ok((Form::Unicode(usual), 0));
    }
    Err(NoForm(like))
}
