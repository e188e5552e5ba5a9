//! The code units of UTF-16 and of UTF-32.
ghost use Rattle.std.specs.Prelude.{◌≡◌, ◌≢◌, ◌≤◌, ◌<◌, ℕ, ◌↔◌, ◌∷◌, [], List, IsTrue, MatchOption, length, map, min, take, drop, refl};
ghost use Rattle.std.specs.Char.{IsScalar};
ghost use Rattle.std.specs.Str.{chars};
ghost use Rattle.wide_forms.specs.EncodingForm.{EncodingForm, Utf16, Utf32, code_units, encode, IsFault, IsPair, IsCodeUnit, IsHighSurrogate, IsLowSurrogate};
ghost use Rattle.wide_forms.specs.Segmentation.{Item, Char, IsSegmentation};
ghost use Rattle.wide_forms.specs.Items.{items, characters, IsWellFormed, BeginsWithChars};
ghost use Rattle.wide_forms.specs.Lossy.{ends_in_fault, lossy, lossy_after};
ghost use Rattle.wide_unit.specs.Unit.{numbers_of};
ghost use Rattle.wide_unit.specs.AnyUnits.{any_form, any_numbers};
ghost use Rattle.wide_forms.specs.Searches.{IsFirstOffset, first_offset, is_unit};
ghost use Rattle.std.proofs.Common.{rules};
ghost use Rattle.wide_forms.specs.Laws.Forms.{code_units-no_low_first};
ghost use Rattle.wide_forms.specs.Laws.Items.{IsCut, items-code_units, segmentation-unique};

use crate::any_units::AnyUnits;
use crate::lanes::{first_no_scalar, first_same_16, first_same_32, first_surrogate, leading_pairs};
use crate::utf8::{length_as_utf16, length_as_utf32};
use wide_forms::{LossyProgress, Policy};
use wide_repair::{char_count, lossy_prefix_16, lossy_prefix_32, repair_16, repair_32};

/// A code unit: `u16` for UTF-16, `u32` for UTF-32 (Unicode Standard, D77).
///
/// The Rust crate has no such trait. No call allocates or fails.
///
/// # Example
///
/// ```
/// use widestring::unit::Unit;
///
/// assert!(rt; u16::encode_char('😀') == (0xd83d, Some(0xde00)));
/// assert!(rt; 0xd83du16.is_high() && 0xde00u16.is_low());
/// assert!(rt; 0xd83du16.pair_scalar(0xde00) == Some('😀'));
/// ```
pub trait Unit: Copy {
    // The encoding form of the units.
    ghost form: { EncodingForm };

    // The number that a unit is.
    ghost number: { Self → ℕ };

    ghost NUL: { Self };

    /// The unit whose number is 0.
    const NUL: Self;

    ghost MAX_CHAR_LEN: { ℕ };

    /// The greatest length of a character in units: 2 in UTF-16, 1 in UTF-32.
    const MAX_CHAR_LEN: usize;

    /// Returns the length of a character in units: 1 or 2 in UTF-16, 1 in UTF-32.
    ///
    /// # Example
    ///
    /// ```
    /// use widestring::unit::Unit;
    ///
    /// assert!(rt; u16::char_len('😀') == 2);
    /// assert!(rt; u32::char_len('😀') == 1);
    /// ```
    fn char_len(c: char) -> usize
        ensures value { result ≡ length (code_units form c) }
        ensures bound { result ≤ MAX_CHAR_LEN };

    /// Returns the length of a text in units of UTF-16 or UTF-32.
    fn text_len(text: &str) -> usize
        ensures { result ≡ length (encode form (chars text.now)) };

    /// Returns the first unit of a character, and the second if there is one.
    fn encode_char(c: char) -> (Self, Option<Self>)
        ensures { numbers_of number result.0 result.1 ≡ code_units form c };

    /// Returns whether the unit is a high surrogate, D800 to DBFF. No 32-bit unit is one.
    fn is_high(self) -> bool
        ensures { IsTrue result ↔ IsHighSurrogate form (number self) };

    /// Returns whether the unit is a low surrogate, DC00 to DFFF. No 32-bit unit is one.
    fn is_low(self) -> bool
        ensures { IsTrue result ↔ IsLowSurrogate form (number self) };

    /// Returns the character that the unit encodes by itself, or `None` if it encodes none.
    fn as_scalar(self) -> Option<char>
        ensures { MatchOption result (IsFault form (number self)) (λ c. IsScalar c × (code_units form c ≡ number self ∷ [])) };

    /// Returns the character that the unit and the one after it encode as a surrogate pair, or `None` if they are no
    /// pair.
    fn pair_scalar(self, low: Self) -> Option<char>
        ensures { MatchOption result (¬ (IsPair form (number self) (number low))) (λ c. IsScalar c × (code_units form c ≡ number self ∷ number low ∷ [])) };

    /// Returns the number that the unit is.
    fn code(self) -> u32
        ensures { result ≡ number self };

    /// Returns how many units precede the first one that encodes no character by itself, such as a surrogate in UTF-16,
    /// or the length if there is none. The search is vectorized.
    fn leading_scalars(units: &[Self]) -> usize
        ensures { IsFirstOffset (IsFault form) (map number units.now) result };

    /// Returns how many units at the beginning a vectorized check passes. All of them belong to characters, also to
    /// surrogate pairs. It returns 0 in UTF-32.
    fn leading_pairs(units: &[Self]) -> usize
        ensures within { result ≤ length units.now }
        ensures text { BeginsWithChars form (map number units.now) (map number (drop result units.now)) };

    /// Returns the number of characters. The count is vectorized in UTF-16, and does not read the units in UTF-32.
    ///
    /// # Requires
    ///
    /// The units are well formed.
    fn char_count(units: &[Self]) -> usize
        requires { IsWellFormed form (map number units.now) }
        ensures { result ≡ length (characters (items form (map number units.now))) };

    /// Returns the index of the first unit whose number is `code`, or the length if there is none. The search is
    /// vectorized.
    fn offset_of(code: u32, units: &[Self]) -> usize
        ensures { result ≡ first_offset (is_unit code) (map number units.now) };

    /// Writes the units to the beginning of `repaired`, with U+FFFD in place of each one that belongs to no character
    /// (Unicode Standard, section 3.9, "U+FFFD Substitution of Maximal Subparts"). The elements after them are
    /// unchanged. It is vectorized.
    ///
    /// # Requires
    ///
    /// `repaired` is at least as long as `units`.
    fn repair(units: &[Self], repaired: &mut [Self])
        requires { length units.now ≤ length repaired.old }
        ensures units { map number (take (length units.now) repaired.new) ≡ encode form (lossy (items form (map number units.now))) }
        ensures beyond { drop (length units.now) repaired.new ≡ drop (length units.now) repaired.old };

    /// Writes the lossy text of a prefix of units under a policy (Unicode Standard, section 3.9, "U+FFFD Substitution
    /// of Maximal Subparts") as well-formed units at the beginning of `text`. It reads all units if `text` is as long,
    /// and otherwise as many as `text` has, or one fewer. If `after_fault` is true, a fault precedes the units. The
    /// units of `text` after those written may be overwritten. It is vectorized in UTF-16.
    ///
    /// # Requires
    ///
    /// `text` has at least two units, or is as long as `units`.
    fn lossy_prefix(
        units: &[Self],
        policy: Policy,
        after_fault: bool,
        text: &mut [Self],
    ) -> LossyProgress
        requires { min (length units.now) 2 ≤ length text.old }
        ensures read { result.read ≤ length units.now }
        ensures all { length units.now ≤ length text.old → result.read ≡ length units.now }
        ensures some { 0 < length units.now → 0 < result.read }
        ensures written { result.written ≤ result.read }
        ensures space { result.written ≤ length text.new }
        ensures cut { IsCut form (map number (take result.read units.now)) (map number (drop result.read units.now)) }
        ensures text { map number (take result.written text.new) ≡ encode form (lossy_after policy after_fault (items form (map number (take result.read units.now)))) }
        ensures state { result.after_fault ≡ ends_in_fault after_fault (items form (map number (take result.read units.now))) };

    /// Returns the units as those of their width, for code that differs by width.
    fn as_any(units: &[Self]) -> AnyUnits<'_>
        ensures form { any_form result ≡ form }
        ensures numbers { any_numbers result ≡ map number units.now };

    /// Returns true for every unit. A call gives a proof that the number is at most FFFF in UTF-16, or FFFFFFFF in
    /// UTF-32.
    fn in_range(self) -> bool
        ensures answer { IsTrue result }
        ensures range { IsCodeUnit form (number self) };

    // Each character has at least one unit, and some character has the greatest number of units.
    ghost takes_units: { 0 < MAX_CHAR_LEN };

    ghost some_takes_all: { (c : ℕ) × IsScalar c × (length (code_units form c) ≡ MAX_CHAR_LEN) };

    // NUL is the number 0.
    ghost nul_is_zero: { number NUL ≡ 0 };

    // Equal numbers are equal units.
    ghost same: { (x y : Self) → number x ≡ number y → x ≡ y };

    // Decoding the units of a character yields this character only.
    ghost reads_back: { (c : ℕ) → IsScalar c → items form (code_units form c) ≡ Char c ∷ [] };

    // A list of units has only one segmentation.
    ghost one_segmentation: { (is js : List Item) (us : List ℕ) → IsSegmentation form is us → IsSegmentation form js us → is ≡ js };

    // No character begins with a low surrogate.
    ghost no_low_first: { (c l : ℕ) (rest : List ℕ) → IsScalar c → IsLowSurrogate form l → code_units form c ≢ l ∷ rest };
}

impl Unit for u16 {
    ghost form = { Utf16 };

    ghost number = { λ u. u };

    ghost NUL = { 0 };

    ghost MAX_CHAR_LEN = { 2 };

    ghost takes_units = { Prim.search rules };

    ghost some_takes_all = { (0x1_0000, refl, refl) };

    ghost nul_is_zero = { refl };

    ghost same = { λ x y e. e };

    ghost reads_back = { items-code_units Utf16 };

    ghost one_segmentation = { segmentation-unique Utf16 };

    ghost no_low_first = { code_units-no_low_first Utf16 };

    const NUL: u16 = 0;

    const MAX_CHAR_LEN: usize = 2;

    #[inline]
    fn char_len(c: char) -> usize {
        if (c as u32) < 0x1_0000 { 1 } else { 2 }
    }

    fn text_len(text: &str) -> usize {
        length_as_utf16(text)
    }

    #[inline]
    fn encode_char(c: char) -> (u16, Option<u16>) {
        let code = c as u32;
        if code < 0x1_0000 {
            return (code as u16, None);
        }
        let over = code - 0x1_0000;
        (
            (0xD800 + over / 0x400) as u16,
            Some((0xDC00 + over % 0x400) as u16),
        )
    }

    #[inline]
    fn is_high(self) -> bool {
        0xD800 <= self && self <= 0xDBFF
    }

    #[inline]
    fn is_low(self) -> bool {
        0xDC00 <= self && self <= 0xDFFF
    }

    #[inline]
    fn as_scalar(self) -> Option<char> {
        char::from_u32(self as u32)
    }

    #[inline]
    fn pair_scalar(self, low: u16) -> Option<char> {
        if self.is_high() && low.is_low() {
            let over = (self as u32 - 0xD800) * 0x400 + (low as u32 - 0xDC00);
            return char::from_u32(0x1_0000 + over);
        }
        None
    }

    #[inline]
    fn code(self) -> u32 {
        u32::from(self)
    }

    fn leading_scalars(units: &[u16]) -> usize {
        first_surrogate(units)
    }

    fn leading_pairs(units: &[u16]) -> usize {
        leading_pairs(units)
    }

    fn char_count(units: &[u16]) -> usize {
        char_count(units)
    }

    // No 16-bit unit is greater than FFFF.
    fn offset_of(code: u32, units: &[u16]) -> usize {
        if code <= 0xFFFF {
            first_same_16(units, code as u16)
        } else {
            units.len()
        }
    }

    fn repair(units: &[u16], repaired: &mut [u16]) {
        repair_16(units, repaired);
    }

    fn lossy_prefix(
        units: &[u16],
        policy: Policy,
        after_fault: bool,
        text: &mut [u16],
    ) -> LossyProgress {
        lossy_prefix_16(units, policy, after_fault, text)
    }

    #[inline]
    fn as_any(units: &[u16]) -> AnyUnits<'_> {
        AnyUnits::U16(units)
    }

    #[inline]
    fn in_range(self) -> bool {
        true
    }
}

impl Unit for u32 {
    ghost form = { Utf32 };

    ghost number = { λ u. u };

    ghost NUL = { 0 };

    ghost MAX_CHAR_LEN = { 1 };

    ghost takes_units = { Prim.search rules };

    ghost some_takes_all = { (0x1_0000, refl, refl) };

    ghost nul_is_zero = { refl };

    ghost same = { λ x y e. e };

    ghost reads_back = { items-code_units Utf32 };

    ghost one_segmentation = { segmentation-unique Utf32 };

    ghost no_low_first = { code_units-no_low_first Utf32 };

    const NUL: u32 = 0;

    const MAX_CHAR_LEN: usize = 1;

    #[inline]
    fn char_len(_c: char) -> usize {
        1
    }

    fn text_len(text: &str) -> usize {
        length_as_utf32(text)
    }

    #[inline]
    fn encode_char(c: char) -> (u32, Option<u32>) {
        (c as u32, None)
    }

    #[inline]
    fn is_high(self) -> bool {
        false
    }

    #[inline]
    fn is_low(self) -> bool {
        false
    }

    #[inline]
    fn as_scalar(self) -> Option<char> {
        char::from_u32(self)
    }

    #[inline]
    fn pair_scalar(self, _low: u32) -> Option<char> {
        None
    }

    #[inline]
    fn code(self) -> u32 {
        self
    }

    fn leading_scalars(units: &[u32]) -> usize {
        first_no_scalar(units)
    }

    #[inline]
    fn leading_pairs(_units: &[u32]) -> usize {
        0
    }

    #[inline]
    fn char_count(units: &[u32]) -> usize {
        units.len()
    }

    fn offset_of(code: u32, units: &[u32]) -> usize {
        first_same_32(units, code)
    }

    fn repair(units: &[u32], repaired: &mut [u32]) {
        repair_32(units, repaired);
    }

    fn lossy_prefix(
        units: &[u32],
        policy: Policy,
        after_fault: bool,
        text: &mut [u32],
    ) -> LossyProgress {
        lossy_prefix_32(units, policy, after_fault, text)
    }

    #[inline]
    fn as_any(units: &[u32]) -> AnyUnits<'_> {
        AnyUnits::U32(units)
    }

    #[inline]
    fn in_range(self) -> bool {
        true
    }
}
