//! The one list type, of bytes, cells and energies, and texts.
ghost use Rattle.std.specs.Prelude.{◌≡◌, length, nat_eq, IfOk, string_bytes};

use crate::Memory;
use std::alloc::Global;
use std::marker::Model;

/// Items that contracts see as a list.
#[derive(Clone, Debug, Drop)]
pub struct Seq<T> {
    items: Vec<T>,
}

/// Bytes.
pub type Bytes = Seq<u8>;

/// Signed numbers, as samples are.
pub type Cells = Seq<i32>;

/// Energies, in 2^-76 of full power.
pub type Energies = Seq<u128>;

impl<T> Model for Seq<T> {
    ghost use Rattle.std.specs.Prelude.{List};

    ghost Value = { List T };

    ghost view = { λ s. s.items.items };
}

impl<T> Seq<T> {
    ghost use Rattle.std.specs.Borrow.{sem};
    ghost use Rattle.lib_base.specs.ItemLends.{lends_items};

    /// The items of a vector, with no memory taken.
    pub fn of(items: Vec<T>) -> Seq<T>
        ensures { result ≡ items.items }
    {
        Seq { items }
    }

    /// The vector, given back with no memory taken.
    pub fn into_vec(self) -> Vec<T>
        ensures { result.items ≡ self }
    {
        self.items
    }

    pub fn as_slice(&self) -> &[T]
        ensures { result.now ≡ self.now }
    {
        self.items.as_slice()
    }

    /// The items for writing. What is left behind the result is what they end as.
    pub fn as_mut_slice(&mut self) -> &mut [T]
        ensures* writes_back { sem 𝓛 (lends_items T.row self.entry result) }
        ensures value { result.now ≡ self.old }
    {
        self.items.as_mut_slice()
    }

    pub fn len(&self) -> usize
        ensures { result ≡ length self.now }
    {
        self.items.len()
    }

    pub fn is_empty(&self) -> bool
        ensures { result ≡ nat_eq 0 (length self.now) }
    {
        self.items.is_empty()
    }
}

impl<T: Copy> Seq<T> {
    /// A copy of a slice.
    pub fn copy(alloc: Global, items: &[T]) -> Result<Seq<T>, Memory>
        ensures { IfOk result (λ copy. copy ≡ items.now) }
    {
        let items = Vec::from_slice(alloc, items)?;
        Ok(Seq { items })
    }
}

/// A text that contracts see as the list of its bytes in UTF-8.
#[derive(Clone, Debug, Drop)]
pub struct Text {
    text: String,
}

impl Model for Text {
    ghost use Rattle.std.specs.Prelude.{List, ℕ, string_bytes};

    ghost Value = { List ℕ };

    ghost view = { λ t. string_bytes t.text };
}

impl Text {
    /// The text of a string, with no memory taken.
    pub fn of(text: String) -> Text
        ensures { result ≡ string_bytes text }
    {
        Text { text }
    }

    /// The string, given back with no memory taken.
    pub fn into_string(self) -> String
        ensures { string_bytes result ≡ self }
    {
        self.text
    }

    pub fn as_str(&self) -> &str
        ensures { result.now ≡ self.now }
    {
        self.text.as_str()
    }
}
