//! Units of either width from numbers, of which some are no characters.
use crate::random::Random;
use std::alloc::AllocError;
use widestring::error::FaultUnit;
use widestring::unit::Unit;

pub(crate) trait Coded: FaultUnit {
    // Appends the units of a character. Another number is appended as one unit that belongs to no character, unless it
    // comes beside the other half of a pair.
    fn push(units: &mut Vec<Self>, number: u32) -> Result<(), AllocError>;
}

impl Coded for u32 {
    fn push(units: &mut Vec<u32>, number: u32) -> Result<(), AllocError> {
        Ok(units.push(number)?)
    }
}

impl Coded for u16 {
    fn push(units: &mut Vec<u16>, number: u32) -> Result<(), AllocError> {
        match char::from_u32(number) {
            Some(c) => {
                let (first, second) = u16::encode_char(c);
                units.push(first)?;
                match second {
                    Some(second) => Ok(units.push(second)?),
                    None => Ok(()),
                }
            }
            None => Ok(units.push(u16::try_from(number).unwrap_or(0xdc00))?),
        }
    }
}

// Appends the units of so many numbers made at random.
pub(crate) fn push_numbers<C: Coded>(
    units: &mut Vec<C>,
    random: &mut Random,
    count: usize,
) -> Result<(), AllocError> {
    for _ in 0..count {
        C::push(units, random.number())?;
    }
    Ok(())
}
