// What a step answers that takes only some lengths and settings.

#![tactic(auto)]

use std::array::TryFromSliceError;
use std::error::Error;
use std::fmt;

// A length or a setting that a step does not take: whatever was lent to it is as it was.
#[derive(Clone, Copy, Debug, PartialEq, Eq)]
pub struct Refused;

impl fmt::Display for Refused {
    fn fmt<W: fmt::Write>(&self, f: &mut fmt::Formatter<W>) -> fmt::Result {
        f.write_str("a length or a setting that the step does not take")
    }
}

impl Error for Refused {}

// A slice that is no array of the length asked for.
impl From<TryFromSliceError> for Refused {
    fn from(_: TryFromSliceError) -> Refused {
        Refused
    }
}
