//! What a field of bits can be besides its value.

/// Why there is no field.
#[derive(Clone, Copy, Debug, PartialEq, Eq)]
pub enum BitFault {
    /// The bits end inside the field.
    Cut,
    /// A byte breaks the form of a coded number.
    BadNumber,
}
