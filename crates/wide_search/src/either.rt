//! Two units, either of which a search looks for: the same unit twice, or a letter in lower case and in upper case.

ghost use Rattle.std.specs.Prelude.{◌≡◌, IfSome};
ghost use Rattle.std.specs.Char.{to_ascii_lowercase, to_ascii_uppercase};

use wide_unit::{Unit, ascii_lowercase, ascii_uppercase};

// Two units, either of which is looked for. They are the same if only one is.
#[derive(Clone, Copy)]
pub(crate) struct Either<L> {
    pub(crate) one: L,
    pub(crate) other: L,
}

// Returns two numbers as 16-bit units, or `None` if one is greater than FFFF.
#[inline(always)]
pub(crate) fn narrow(numbers: Either<u32>) -> Option<Either<u16>>
    ensures { IfSome result (λ units. units ≡ numbers) }
{
    match (u16::try_from(numbers.one), u16::try_from(numbers.other)) {
        (Ok(one), Ok(other)) => Some(Either { one, other }),
        _ => None,
    }
}

// Returns the number of a unit as both units of a search that is exact.
#[inline(always)]
pub(crate) fn exactly<C: Unit>(unit: C) -> Either<u32>
    ensures one { result.one ≡ C.number unit }
    ensures other { result.other ≡ C.number unit }
{
    let number = unit.code();
    Either {
        one: number,
        other: number,
    }
}

// Returns the number of a unit in lower case and in upper case, if it is an ASCII letter. Otherwise both are the number
// itself.
#[inline(always)]
pub(crate) fn in_either_case<C: Unit>(unit: C) -> Either<u32>
    ensures one { result.one ≡ to_ascii_lowercase (C.number unit) }
    ensures other { result.other ≡ to_ascii_uppercase (C.number unit) }
{
    let number = unit.code();
    Either {
        one: ascii_lowercase(number),
        other: ascii_uppercase(number),
    }
}
