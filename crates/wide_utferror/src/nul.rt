//! Errors of NULs at offsets where none is allowed, and of missing NULs.

ghost use Rattle.std.specs.Prelude.{◌≡◌, None};
ghost use Rattle.wide_utferror.specs.Nul.{position_of, vec_of};

use std::alloc::{AllocError, AllocFailed, Allocator, Global};
use std::error::Error;
use std::fmt;
use wide_error::OutOfMemory;

/// The units do not end in NUL. The error of a call that truncates at a NUL means that there is no NUL at all.
///
/// # Example
///
/// ```
/// let missing = U16CStr::from_slice_truncate(&[0x48, 0x69]).err();
/// assert!(rt; missing == Some(MissingNulTerminator));
/// ```
#[derive(Clone, Copy, Debug, PartialEq, Eq, Hash)]
pub struct MissingNulTerminator;

impl fmt::Display for MissingNulTerminator {
    ghost use Rattle.std.specs.Prelude.{Some};
    ghost use Rattle.wide_error.specs.Texts.{missing_nul_text};

    ghost output = { λ _. Some missing_nul_text };

    fn fmt<W: fmt::Write>(&self, f: &mut fmt::Formatter<W>) -> fmt::Result {
        f.write_str("missing terminating nul value")
    }
}

impl Error for MissingNulTerminator {}

/// A NUL at an offset where none is allowed: before the last unit, or anywhere for a call that allows no NUL.
///
/// The error of a constructor of an owned string holds the vector that was passed in, or its copy. The error for a view
/// holds none.
///
/// # Example
///
/// ```
/// let units = [0x43, 0, 0x3a].to_vec(rt.alloc())?;
/// let Err(UCStringError::ContainsNul(fault)) = U16CString::from_vec(units) else {
///     panic!(rt; "a NUL is at index 1")
/// };
/// let units = fault.into_vec();
/// assert!(rt; units.map(|units| units.len()) == Some(3));
/// ```
#[derive(Drop)]
pub struct ContainsNul<C, A: Allocator = Global> {
    position: usize,
    vec: Option<Vec<C, A>>,
}

impl<C, A: Allocator> ContainsNul<C, A> {
    /// Creates the error for the first NUL, at the offset `position` in units, with the vector to return.
    pub fn new(position: usize, vec: Option<Vec<C, A>>) -> Self
        ensures position { position_of result ≡ position }
        ensures vec { vec_of result ≡ vec }
    {
        ContainsNul { position, vec }
    }

    /// Returns the offset of the first NUL, in units.
    ///
    /// # Example
    ///
    /// ```
    /// let units = [0x48, 0x69, 0, 0x21, 0];
    /// let Err(NulError::ContainsNul(fault)) = U16CStr::from_slice(&units) else {
    ///     panic!(rt; "a NUL is at index 2")
    /// };
    /// assert!(rt; fault.nul_position() == 2);
    /// ```
    pub fn nul_position(&self) -> usize
        ensures { result ≡ position_of self.now }
    {
        self.position
    }

    /// Returns the vector that was passed in, or the copy that was made of the units, or `None` if the call was for a
    /// view.
    ///
    /// # Example
    ///
    /// ```
    /// let units = [0x48, 0, 0xd83d].to_vec(rt.alloc())?;
    /// let Err(UCStringError::ContainsNul(fault)) = U16CString::from_vec(units) else {
    ///     panic!(rt; "a NUL is at index 1")
    /// };
    /// let units = fault.into_vec();
    /// assert!(rt; units.is_some_and(|units| units.as_slice() == [0x48, 0, 0xd83d].as_slice()));
    /// ```
    pub fn into_vec(self) -> Option<Vec<C, A>>
        ensures { result ≡ vec_of self }
    {
        self.vec
    }
}

impl<C, A: Allocator> fmt::Display for ContainsNul<C, A> {
    ghost use Rattle.std.specs.Prelude.{Some};
    ghost use Rattle.wide_error.specs.Texts.{contains_nul_text};

    ghost output = { λ e. Some (contains_nul_text (position_of e)) };

    fn fmt<W: fmt::Write>(&self, f: &mut fmt::Formatter<W>) -> fmt::Result {
        write!(f, "invalid nul value found at position {}", self.position)
    }
}

impl<C, A: Allocator> fmt::Debug for ContainsNul<C, A> {
    fn fmt<W: fmt::Write>(&self, f: &mut fmt::Formatter<W>) -> fmt::Result {
        write!(f, "ContainsNul {{ position: {} }}", self.position)
    }
}

impl<C: Drop, A: Allocator + Drop> Error for ContainsNul<C, A> {}

/// The units are no C string: they do not end in NUL, or have a NUL before their last unit.
///
/// # Example
///
/// ```
/// let open = U16CStr::from_slice(&[0x48, 0x69]);
/// assert!(rt; matches!(open, Err(NulError::MissingNulTerminator(_))));
/// let parted = U16CStr::from_slice(&[0x48, 0, 0x69, 0]);
/// assert!(rt; matches!(parted, Err(NulError::ContainsNul(_))));
/// ```
#[derive(Drop)]
pub enum NulError<C, A: Allocator = Global> {
    /// The units do not end in NUL.
    MissingNulTerminator(MissingNulTerminator),
    /// There is a NUL before the last unit.
    ContainsNul(ContainsNul<C, A>),
}

impl<C, A: Allocator> NulError<C, A> {
    ghost use Rattle.wide_utferror.specs.NulError.{handed_back};

    /// Returns the vector that the error was made with. It is `None` for each error that this library makes, since only
    /// calls for views do: calls for owned C strings return a [`UCStringError`].
    pub fn into_vec(self) -> Option<Vec<C, A>>
        ensures { result ≡ handed_back self }
    {
        match self {
            NulError::MissingNulTerminator(_) => None,
            NulError::ContainsNul(e) => e.into_vec(),
        }
    }
}

impl<C, A: Allocator> fmt::Display for NulError<C, A> {
    ghost use Rattle.std.specs.Prelude.{Some};
    ghost use Rattle.wide_utferror.specs.NulError.{nul_error_text};

    ghost output = { λ e. Some (nul_error_text e) };

    fn fmt<W: fmt::Write>(&self, f: &mut fmt::Formatter<W>) -> fmt::Result {
        match self {
            NulError::MissingNulTerminator(e) => fmt::Display::fmt(e, f),
            NulError::ContainsNul(e) => fmt::Display::fmt(e, f),
        }
    }
}

impl<C, A: Allocator> fmt::Debug for NulError<C, A> {
    fn fmt<W: fmt::Write>(&self, f: &mut fmt::Formatter<W>) -> fmt::Result {
        match self {
            NulError::MissingNulTerminator(e) => fmt::Debug::fmt(e, f),
            NulError::ContainsNul(e) => fmt::Debug::fmt(e, f),
        }
    }
}

impl<C: Drop, A: Allocator + Drop> Error for NulError<C, A> {}

impl<C, A: Allocator> From<MissingNulTerminator> for NulError<C, A> {
    ghost use Rattle.wide_utferror.specs.declared.nul.NulError.TheVariants.{MissingNulTerminator};

    ghost from_gives = { λ missing e. e ≡ MissingNulTerminator missing };

    fn from(missing: MissingNulTerminator) -> NulError<C, A> {
        NulError::MissingNulTerminator(missing)
    }
}

impl<C, A: Allocator> From<ContainsNul<C, A>> for NulError<C, A> {
    ghost use Rattle.wide_utferror.specs.declared.nul.NulError.TheVariants.{ContainsNul};

    ghost from_gives = { λ inner e. e ≡ ContainsNul inner };

    fn from(inner: ContainsNul<C, A>) -> NulError<C, A> {
        NulError::ContainsNul(inner)
    }
}

/// No C string was made: there is a NUL at an offset where none is allowed, or an allocation failed.
///
/// # Example
///
/// ```
/// let made = U16CString::from_str(rt.alloc(), "Hi\0there");
/// let Some(error) = made.err() else {
///     panic!(rt; "a NUL is at index 2")
/// };
/// let printed = error.to_string(rt.alloc())?;
/// assert!(rt; printed.as_str() == "invalid nul value found at position 2");
/// ```
#[derive(Drop)]
pub enum UCStringError<C, A: Allocator = Global> {
    /// There is a NUL before the last unit, or anywhere for a call that allows no NUL.
    ContainsNul(ContainsNul<C, A>),
    /// An allocation failed. The error holds the vector if one was passed in.
    OutOfMemory(Option<Vec<C, A>>),
}

impl<C, A: Allocator> fmt::Display for UCStringError<C, A> {
    ghost use Rattle.std.specs.Prelude.{Some};
    ghost use Rattle.wide_utferror.specs.UCStringError.{ucstring_error_text};

    ghost output = { λ e. Some (ucstring_error_text e) };

    fn fmt<W: fmt::Write>(&self, f: &mut fmt::Formatter<W>) -> fmt::Result {
        match self {
            UCStringError::ContainsNul(e) => fmt::Display::fmt(e, f),
            UCStringError::OutOfMemory(_) => fmt::Display::fmt(&OutOfMemory, f),
        }
    }
}

impl<C, A: Allocator> fmt::Debug for UCStringError<C, A> {
    fn fmt<W: fmt::Write>(&self, f: &mut fmt::Formatter<W>) -> fmt::Result {
        match self {
            UCStringError::ContainsNul(e) => fmt::Debug::fmt(e, f),
            UCStringError::OutOfMemory(_) => fmt::Debug::fmt(&OutOfMemory, f),
        }
    }
}

impl<C: Drop, A: Allocator + Drop> Error for UCStringError<C, A> {}

impl<C, A: Allocator> From<ContainsNul<C, A>> for UCStringError<C, A> {
    ghost use Rattle.wide_utferror.specs.declared.nul.UCStringError.TheVariants.{ContainsNul};

    ghost from_gives = { λ inner e. e ≡ ContainsNul inner };

    fn from(inner: ContainsNul<C, A>) -> UCStringError<C, A> {
        UCStringError::ContainsNul(inner)
    }
}

impl<C, A: Allocator> From<OutOfMemory> for UCStringError<C, A> {
    ghost use Rattle.wide_utferror.specs.declared.nul.UCStringError.TheVariants.{OutOfMemory};

    ghost from_gives = { λ _ e. e ≡ OutOfMemory None };

    fn from(_error: OutOfMemory) -> UCStringError<C, A> {
        UCStringError::OutOfMemory(None)
    }
}

impl<C, A: Allocator> From<AllocError> for UCStringError<C, A> {
    ghost use Rattle.wide_utferror.specs.declared.nul.UCStringError.TheVariants.{OutOfMemory};

    ghost from_gives = { λ _ e. e ≡ OutOfMemory None };

    fn from(_error: AllocError) -> UCStringError<C, A> {
        UCStringError::OutOfMemory(None)
    }
}

impl<C, A: Allocator, T: Drop> From<AllocFailed<T>> for UCStringError<C, A> {
    ghost use Rattle.wide_utferror.specs.declared.nul.UCStringError.TheVariants.{OutOfMemory};

    ghost from_gives = { λ _ e. e ≡ OutOfMemory None };

    fn from(_error: AllocFailed<T>) -> UCStringError<C, A> {
        UCStringError::OutOfMemory(None)
    }
}
