//! What a call can answer besides its value.
ghost use Rattle.std.specs.Prelude.{◌≡◌, Some};
ghost use Rattle.lib_base.specs.Rules.{rule_text, broken_text};
ghost use Rattle.lib_base.specs.declared.outcomes.Outside.TheVariants as outside;
ghost use Rattle.lib_base.specs.declared.outcomes.Refused.TheVariants as refused;

use std::alloc::{AllocError, AllocFailed};
use std::fmt;

/// Want of memory.
#[derive(Clone, Copy, Debug, PartialEq, Eq)]
pub struct Memory;

impl From<AllocError> for Memory {
    fn from(_: AllocError) -> Memory {
        Memory
    }
}

impl<T: Drop> From<AllocFailed<T>> for Memory {
    fn from(_: AllocFailed<T>) -> Memory {
        Memory
    }
}

/// A fault that an object of the outside has counted.
#[derive(Clone, Copy, Debug, PartialEq, Eq)]
pub struct Failed;

/// Why a call on the outside was refused.
#[derive(Clone, Copy, Debug, PartialEq, Eq)]
pub enum Outside {
    /// A fault, which the object has counted.
    Failed,
    /// Want of memory.
    Memory,
}

impl From<AllocError> for Outside {
    ghost from_gives = { λ _ e. e ≡ outside.Memory };

    fn from(_: AllocError) -> Outside {
        Outside::Memory
    }
}

impl<T: Drop> From<AllocFailed<T>> for Outside {
    ghost from_gives = { λ _ e. e ≡ outside.Memory };

    fn from(_: AllocFailed<T>) -> Outside {
        Outside::Memory
    }
}

impl From<Memory> for Outside {
    ghost from_gives = { λ _ e. e ≡ outside.Memory };

    fn from(_: Memory) -> Outside {
        Outside::Memory
    }
}

/// A rule of a file's form, by its family and number.
///
/// The families are `K` over all formats, `V` of waves, `F` of FLAC, `C` of comment blocks and `T`
/// of files handed out. A rule prints as its letter and number, as `F28`.
#[derive(Clone, Copy, Debug, PartialEq, Eq)]
pub enum Rule {
    K(u8),
    V(u8),
    F(u8),
    C(u8),
    T(u8),
}

impl fmt::Display for Rule {
    ghost output = { λ rule. Some (rule_text rule) };

    fn fmt<W: fmt::Write>(&self, f: &mut fmt::Formatter<W>) -> fmt::Result {
        match *self {
            Rule::K(number) => write!(f, "K{number}"),
            Rule::V(number) => write!(f, "V{number}"),
            Rule::F(number) => write!(f, "F{number}"),
            Rule::C(number) => write!(f, "C{number}"),
            Rule::T(number) => write!(f, "T{number}"),
        }
    }
}

/// A file breaks this rule at this place, a byte offset from its start.
#[derive(Clone, Copy, Debug, PartialEq, Eq)]
pub struct Broken {
    pub rule: Rule,
    pub place: u64,
}

/// Prints as `rule F28 place 42`.
impl fmt::Display for Broken {
    ghost output = { λ broken. Some (broken_text broken) };

    fn fmt<W: fmt::Write>(&self, f: &mut fmt::Formatter<W>) -> fmt::Result {
        write!(f, "rule {} place {}", self.rule, self.place)
    }
}

/// Why a reader refuses a file.
#[derive(Clone, Copy, Debug, PartialEq, Eq)]
pub enum Refused {
    Broken(Broken),
    /// Want of memory.
    Memory,
}

impl From<AllocError> for Refused {
    ghost from_gives = { λ _ e. e ≡ refused.Memory };

    fn from(_: AllocError) -> Refused {
        Refused::Memory
    }
}

impl<T: Drop> From<AllocFailed<T>> for Refused {
    ghost from_gives = { λ _ e. e ≡ refused.Memory };

    fn from(_: AllocFailed<T>) -> Refused {
        Refused::Memory
    }
}

impl From<Memory> for Refused {
    ghost from_gives = { λ _ e. e ≡ refused.Memory };

    fn from(_: Memory) -> Refused {
        Refused::Memory
    }
}
