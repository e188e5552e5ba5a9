//! The characters of well-formed text, each escaped.
ghost use Rattle.std.specs.Prelude.{◌≡◌, ◌<◌, ◌≤◌, ℕ, Bool, List, length, true, Some, None, IfSome, IfNone, encode_utf8_all, ⊤};
ghost use Rattle.std.specs.Char.{is_ascii};
ghost use Rattle.std.specs.Char.Escape.{escape_unicode, escape_default};
ghost use Rattle.std.specs.Char.Iter.{escape_rest, escape_left, escape_end};
ghost use Rattle.std.specs.Fmt.{WritesOnOk, WritesStyledOnOk};
ghost use Rattle.std.specs.Iterator.{YieldsFirst, at_most, UpTo};
ghost use Rattle.std.specs.Iterator.SizeHint.{IsWithinCount};
ghost use Rattle.std.specs.List.{flat_map, list_all};
ghost use Rattle.std.specs.Option.{ForSome};
ghost use Rattle.wide_forms.specs.Texts.{escape_debug};
ghost use Rattle.wide_forms.specs.Utf8.{utf8};
ghost use Rattle.wide_utfstr.specs.Pending.{pending_rest};
ghost use Rattle.wide_utfstr.specs.View.{text_seen};

use crate::view::UtfStr;
use std::alloc::AllocError;
use std::iter::FusedIterator;
use std::{char, fmt};
use wide_unit::{Unit, write_escape};

// One of the three ways to escape a character. Rattle's standard library has one type for the escapes of all three.
trait Escaping {
    // The escape of a character.
    ghost escaped: { ℕ → List ℕ };

    // Whether the contract specifies the escape of a character.
    ghost is_specified: { ℕ → Bool };

    // Returns the escape of a character.
    fn escape(c: char) -> char::EscapeUnicode
        ensures rest { is_specified c ≡ true → escape_rest result ≡ escaped c }
        ensures bound { escape_end result ≤ 10 }
        ensures some { 0 < escape_left result };
}

// Escapes each character as `\u{..}`.
struct AsUnicode;

impl Escaping for AsUnicode {
    ghost escaped = { escape_unicode };

    ghost is_specified = { λ _. true };

    fn escape(c: char) -> char::EscapeUnicode {
        c.escape_unicode()
    }
}

// Escapes each character as [`char::escape_default`] does.
struct AsDefault;

impl Escaping for AsDefault {
    ghost escaped = { escape_default };

    ghost is_specified = { λ _. true };

    fn escape(c: char) -> char::EscapeUnicode {
        c.escape_default()
    }
}

// Escapes each character as [`char::escape_debug`] does. The standard library's contract specifies it for ASCII
// characters only.
struct AsDebug;

impl Escaping for AsDebug {
    ghost escaped = { escape_debug };

    ghost is_specified = { is_ascii };

    fn escape(c: char) -> char::EscapeUnicode {
        c.escape_debug()
    }
}

// Writes the rest of an escape that was partly read, if there is one.
fn write_pending<W: fmt::Write>(
    f: &mut fmt::Formatter<W>,
    current: Option<char::EscapeUnicode>,
) -> fmt::Result
    requires { ForSome current (λ e. escape_end e ≤ 10) }
    ensures writes { WritesOnOk W.write_str_gives f.old result (encode_utf8_all (pending_rest escape_rest current)) f.new }
    ensures styled { WritesStyledOnOk W.write_str_gives f.old result (encode_utf8_all (pending_rest escape_rest current)) f.new }
{
    match current {
        Some(escape) => write_escape(f, escape),
        None => Ok(()),
    }
}

// The escapes of the characters of a text that are not read yet.
struct Escapes<'a, C: Unit> {
    // The text whose characters are still to be escaped.
    rest: UtfStr<'a, C>,
    // What is left of the escape that was partly read, if there is one.
    current: Option<char::EscapeUnicode>,
    ghost in_bounds: { ForSome current (λ e. escape_end e ≤ 10) },
}

impl<C: Unit> Clone for Escapes<'_, C> {
    ghost is_clone = { λ s r. r ≡ s };

    ghost is_infallible = { λ _. ⊤ };

    fn clone(&self) -> Result<Self, AllocError> {
        Ok(*self)
    }
}

impl<C: Unit> Copy for Escapes<'_, C> {}

impl<'a, C: Unit> Escapes<'a, C> {
    ghost use Rattle.wide_utfstr.specs.Escapes.{escapes_rest, escapes_left, escapes_most, in_quotes};

    fn new(rest: UtfStr<'a, C>) -> Self
        ensures rest { escapes_rest result ≡ text_seen rest.entry }
        ensures left { (escaped : ℕ → List ℕ) → escapes_left escaped result ≡ flat_map escaped (text_seen rest.entry) }
    {
        Escapes {
            rest,
            current: None,
        }
    }

    // Returns the next character of what was not read yet, as `E` escapes it.
    fn next<E: Escaping>(&mut self) -> Option<char>
        ensures first { list_all E.is_specified (escapes_rest self.old) ≡ true → YieldsFirst (escapes_left E.escaped) self.old result self.new }
        ensures reported { list_all E.is_specified (escapes_rest self.old) ≡ true → list_all E.is_specified (escapes_rest self.new) ≡ true }
        ensures fewer { IfSome result (λ _. escapes_most self.new < escapes_most self.old) }
        ensures ended { IfNone result ((escapes_most self.old ≡ 0) × (escapes_most self.new ≡ 0)) }
    {
        if let Some(mut current) = self.current {
            if let Some(c) = current.next() {
                self.current = Some(current);
                return Some(c);
            }
        }
        let (c, others) = self.rest.split_first_char()?;
        let mut escape = E::escape(c);
        let first = escape.next();
        self.rest = others;
        self.current = Some(escape);
        first
    }

    // Writes what was not read yet, as `E` escapes it. It ignores the format options.
    fn write<E: Escaping, W: fmt::Write>(&self, f: &mut fmt::Formatter<W>) -> fmt::Result
        ensures writes { list_all E.is_specified (escapes_rest self.now) ≡ true → WritesOnOk W.write_str_gives f.old result (utf8 (escapes_left E.escaped self.now)) f.new }
        ensures styled { list_all E.is_specified (escapes_rest self.now) ≡ true → WritesStyledOnOk W.write_str_gives f.old result (utf8 (escapes_left E.escaped self.now)) f.new }
    {
        write_pending(f, self.current)?;
        for c in self.rest.chars() {
            write_escape(f, E::escape(c))?;
        }
        Ok(())
    }

    // Writes what was not read yet, as `E` escapes it, between quotes.
    fn write_quoted<E: Escaping, W: fmt::Write>(&self, f: &mut fmt::Formatter<W>) -> fmt::Result
        ensures { list_all E.is_specified (escapes_rest self.now) ≡ true → WritesOnOk W.write_str_gives f.old result (in_quotes (utf8 (escapes_left E.escaped self.now))) f.new }
    {
        f.write_str("\"")?;
        self.write::<E, W>(f)?;
        f.write_str("\"")
    }
}

/// An iterator over the escapes of a view's characters. Each escape is `\u{..}` with the character's number in
/// lower-case hexadecimal, without leading zeros.
///
/// It yields them from the front, continues to return `None` after its end, and does not allocate. Made by
/// [`UtfStr::escape_unicode`](crate::UtfStr::escape_unicode).
///
/// # Example
///
/// ```
/// let escaped = Utf16Str::from_slice(&[0x48, 0xd83d, 0xde00])?.escape_unicode();
/// let text = escaped.to_string(rt.alloc())?;
/// assert!(rt; text.as_str() == "\\u{48}\\u{1f600}");
/// ```
#[derive(Drop)]
pub struct EscapeUnicode<'a, C: Unit> {
    escapes: Escapes<'a, C>,
}

impl<C: Unit> Clone for EscapeUnicode<'_, C> {
    ghost is_clone = { λ s r. r ≡ s };

    ghost is_infallible = { λ _. ⊤ };

    /// Returns a copy that yields the same characters.
    fn clone(&self) -> Result<Self, AllocError> {
        Ok(EscapeUnicode {
            escapes: self.escapes,
        })
    }
}

impl<C: Unit> Iterator for EscapeUnicode<'_, C> {
    ghost use Rattle.wide_utfstr.specs.Escapes.{unicode_left};

    type Item = char;

    ghost next_gives = { YieldsFirst unicode_left };

    ghost remaining = { λ s. at_most (length (unicode_left s)) };

    fn next(&mut self) -> Option<char> {
        self.escapes.next::<AsUnicode>()
    }

    /// Returns no bounds: 0 and `None`.
    fn size_hint(&self) -> (usize, Option<usize>)
        ensures lower { IsWithinCount result.0 (at_most (length (unicode_left self.now))) }
        ensures upper { IfSome result.1 (UpTo (at_most (length (unicode_left self.now)))) }
        ensures least { result.0 ≡ 0 }
        ensures most { result.1 ≡ None }
    {
        (0, None)
    }
}

impl<C: Unit> FusedIterator for EscapeUnicode<'_, C> {}

impl<C: Unit> fmt::Display for EscapeUnicode<'_, C> {
    ghost use Rattle.wide_utfstr.specs.Escapes.{unicode_left};

    ghost output = { λ s. Some (utf8 (unicode_left s)) };

    ghost styled_output = { λ s _. Some (utf8 (unicode_left s)) };

    /// Prints the characters that were not read yet. It ignores the format options.
    fn fmt<W: fmt::Write>(&self, f: &mut fmt::Formatter<W>) -> fmt::Result {
        self.escapes.write::<AsUnicode, W>(f)
    }
}

impl<C: Unit> fmt::Debug for EscapeUnicode<'_, C> {
    ghost use Rattle.wide_utfstr.specs.Escapes.{unicode_left, in_quotes};

    ghost debug_output = { λ s. Some (in_quotes (utf8 (unicode_left s))) };

    /// Prints the characters that were not read yet between quotes.
    fn fmt<W: fmt::Write>(&self, f: &mut fmt::Formatter<W>) -> fmt::Result {
        self.escapes.write_quoted::<AsUnicode, W>(f)
    }
}

/// An iterator over the escapes of a view's characters, as [`char::escape_default`] returns them.
///
/// It yields them from the front, continues to return `None` after its end, and does not allocate. Made by
/// [`UtfStr::escape_default`](crate::UtfStr::escape_default).
///
/// # Example
///
/// ```
/// let escaped = Utf16Str::from_slice(&[0x22, 0xe9, 0x22])?.escape_default();
/// let text = escaped.to_string(rt.alloc())?;
/// assert!(rt; text.as_str() == "\\\"\\u{e9}\\\"");
/// ```
#[derive(Drop)]
pub struct EscapeDefault<'a, C: Unit> {
    escapes: Escapes<'a, C>,
}

impl<C: Unit> Clone for EscapeDefault<'_, C> {
    ghost is_clone = { λ s r. r ≡ s };

    ghost is_infallible = { λ _. ⊤ };

    /// Returns a copy that yields the same characters.
    fn clone(&self) -> Result<Self, AllocError> {
        Ok(EscapeDefault {
            escapes: self.escapes,
        })
    }
}

impl<C: Unit> Iterator for EscapeDefault<'_, C> {
    ghost use Rattle.wide_utfstr.specs.Escapes.{default_left};

    type Item = char;

    ghost next_gives = { YieldsFirst default_left };

    ghost remaining = { λ s. at_most (length (default_left s)) };

    fn next(&mut self) -> Option<char> {
        self.escapes.next::<AsDefault>()
    }

    /// Returns no bounds: 0 and `None`.
    fn size_hint(&self) -> (usize, Option<usize>)
        ensures lower { IsWithinCount result.0 (at_most (length (default_left self.now))) }
        ensures upper { IfSome result.1 (UpTo (at_most (length (default_left self.now)))) }
        ensures least { result.0 ≡ 0 }
        ensures most { result.1 ≡ None }
    {
        (0, None)
    }
}

impl<C: Unit> FusedIterator for EscapeDefault<'_, C> {}

impl<C: Unit> fmt::Display for EscapeDefault<'_, C> {
    ghost use Rattle.wide_utfstr.specs.Escapes.{default_left};

    ghost output = { λ s. Some (utf8 (default_left s)) };

    ghost styled_output = { λ s _. Some (utf8 (default_left s)) };

    /// Prints the characters that were not read yet. It ignores the format options.
    fn fmt<W: fmt::Write>(&self, f: &mut fmt::Formatter<W>) -> fmt::Result {
        self.escapes.write::<AsDefault, W>(f)
    }
}

impl<C: Unit> fmt::Debug for EscapeDefault<'_, C> {
    ghost use Rattle.wide_utfstr.specs.Escapes.{default_left, in_quotes};

    ghost debug_output = { λ s. Some (in_quotes (utf8 (default_left s))) };

    /// Prints the characters that were not read yet between quotes.
    fn fmt<W: fmt::Write>(&self, f: &mut fmt::Formatter<W>) -> fmt::Result {
        self.escapes.write_quoted::<AsDefault, W>(f)
    }
}

/// An iterator over the escapes of a view's characters, as [`char::escape_debug`] returns them.
///
/// It yields them from the front, continues to return `None` after its end, and does not allocate. Made by
/// [`UtfStr::escape_debug`](crate::UtfStr::escape_debug).
///
/// # Example
///
/// ```
/// let escaped = Utf16Str::from_slice(&[0xe9, 0x9, 0])?.escape_debug();
/// let text = escaped.to_string(rt.alloc())?;
/// assert!(rt; text.as_str() == "é\\t\\0");
/// ```
#[derive(Drop)]
pub struct EscapeDebug<'a, C: Unit> {
    escapes: Escapes<'a, C>,
}

impl<C: Unit> Clone for EscapeDebug<'_, C> {
    ghost is_clone = { λ s r. r ≡ s };

    ghost is_infallible = { λ _. ⊤ };

    /// Returns a copy that yields the same characters.
    fn clone(&self) -> Result<Self, AllocError> {
        Ok(EscapeDebug {
            escapes: self.escapes,
        })
    }
}

impl<C: Unit> Iterator for EscapeDebug<'_, C> {
    ghost use Rattle.wide_utfstr.specs.Escapes.{debug_most, DebugGives};

    type Item = char;

    ghost next_gives = { DebugGives };

    ghost remaining = { λ s. at_most (debug_most s) };

    fn next(&mut self) -> Option<char> {
        self.escapes.next::<AsDebug>()
    }

    /// Returns no bounds: 0 and `None`.
    fn size_hint(&self) -> (usize, Option<usize>)
        ensures lower { IsWithinCount result.0 (at_most (debug_most self.now)) }
        ensures upper { IfSome result.1 (UpTo (at_most (debug_most self.now))) }
        ensures least { result.0 ≡ 0 }
        ensures most { result.1 ≡ None }
    {
        (0, None)
    }
}

impl<C: Unit> FusedIterator for EscapeDebug<'_, C> {}

impl<C: Unit> fmt::Display for EscapeDebug<'_, C> {
    ghost use Rattle.wide_utfstr.specs.Escapes.{debug_left_output};

    ghost output = { debug_left_output };

    ghost styled_output = { λ s _. debug_left_output s };

    /// Prints the characters that were not read yet. It ignores the format options.
    fn fmt<W: fmt::Write>(&self, f: &mut fmt::Formatter<W>) -> fmt::Result {
        self.escapes.write::<AsDebug, W>(f)
    }
}

impl<C: Unit> fmt::Debug for EscapeDebug<'_, C> {
    ghost use Rattle.wide_utfstr.specs.Escapes.{debug_left_quoted};

    ghost debug_output = { debug_left_quoted };

    /// Prints the characters that were not read yet between quotes.
    fn fmt<W: fmt::Write>(&self, f: &mut fmt::Formatter<W>) -> fmt::Result {
        self.escapes.write_quoted::<AsDebug, W>(f)
    }
}

impl<'a, C: Unit> UtfStr<'a, C> {
    ghost use Rattle.wide_utfstr.specs.Escapes.{unicode_left, default_left, debug_left, HasAsciiLeft};

    /// Returns an iterator over the escaped characters, each as `\u{..}` with its number in lower-case hexadecimal,
    /// without leading zeros.
    ///
    /// # Example
    ///
    /// ```
    /// let text = Utf16Str::from_slice(&[0x48, 0xd83d, 0xde00])?;
    /// assert!(rt; text.escape_unicode().eq("\\u{48}\\u{1f600}".chars()));
    /// let line = format!(in rt.alloc(); "<{}>", text.escape_unicode())?;
    /// assert!(rt; line.as_str() == "<\\u{48}\\u{1f600}>");
    /// ```
    pub fn escape_unicode(self) -> EscapeUnicode<'a, C>
        ensures { unicode_left result ≡ flat_map escape_unicode (text_seen self.entry) }
    {
        EscapeUnicode {
            escapes: Escapes::new(self),
        }
    }

    /// Returns an iterator over the escaped characters, as [`char::escape_default`] returns them. Tab, carriage return
    /// and line feed become `\t`, `\r` and `\n`. Quotes of both kinds and the backslash get a backslash before them.
    /// Other characters from U+0020 to U+007E are not escaped. All others become `\u{..}`.
    ///
    /// # Example
    ///
    /// ```
    /// let text = Utf16Str::from_slice(&[0x22, 0xe9, 0xa, 0xd83d, 0xde00])?;
    /// assert!(rt; text.escape_default().eq("\\\"\\u{e9}\\n\\u{1f600}".chars()));
    /// let line = format!(in rt.alloc(); "<{}>", text.escape_default())?;
    /// assert!(rt; line.as_str() == "<\\\"\\u{e9}\\n\\u{1f600}>");
    /// ```
    pub fn escape_default(self) -> EscapeDefault<'a, C>
        ensures { default_left result ≡ flat_map escape_default (text_seen self.entry) }
    {
        EscapeDefault {
            escapes: Escapes::new(self),
        }
    }

    /// Returns an iterator over the escaped characters, as [`char::escape_debug`] returns them. Tab, carriage return,
    /// line feed and NUL become `\t`, `\r`, `\n` and `\0`. Quotes of both kinds and the backslash get a backslash
    /// before them. Other characters from U+0020 to U+007E are not escaped, nor are printable characters past ASCII.
    /// All others become `\u{..}`. The contract specifies the text only if all characters are ASCII.
    ///
    /// # Example
    ///
    /// ```
    /// let text = Utf16Str::from_slice(&[0x22, 0xe9, 0xa, 0xd83d, 0xde00])?;
    /// assert!(rt; text.escape_debug().eq("\\\"é\\n😀".chars()));
    /// let line = format!(in rt.alloc(); "<{}>", text.escape_debug())?;
    /// assert!(rt; line.as_str() == "<\\\"é\\n😀>");
    /// ```
    pub fn escape_debug(self) -> EscapeDebug<'a, C>
        ensures left { debug_left result ≡ flat_map escape_debug (text_seen self.entry) }
        ensures ascii { list_all is_ascii (text_seen self.entry) ≡ true → HasAsciiLeft result }
    {
        EscapeDebug {
            escapes: Escapes::new(self),
        }
    }
}
