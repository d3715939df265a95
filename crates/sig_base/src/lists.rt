//! Small lists. Contracts see each of them as the list of its members.
ghost use Rattle.std.specs.Prelude.{◌≡◌, ◌∷◌, ◌++◌, [], length, IfOk, IsTrue, OnOk, OnErr, ◌↔◌, slice_get, encode_utf8_all, string_bytes};
ghost use Rattle.std.specs.Option.{option_copied};
ghost use Rattle.std.specs.Str.{chars};

use crate::memory::NoMemory;
use std::alloc::Global;
use std::marker::Model;

/// A list of `T`, which lends its members.
#[derive(Drop)]
pub struct Members<T> {
    members: Vec<T>,
}

impl<T> Model for Members<T> {
    ghost use Rattle.std.specs.Prelude.{List};

    ghost Value = { List T };

    ghost view = { λ l. l.members.items };
}

impl<T: Drop> Members<T> {
    /// The empty list.
    pub fn new(alloc: Global) -> Members<T>
        ensures { result ≡ [] }
    {
        Members {
            members: Vec::new(alloc),
        }
    }

    /// Appends a member. After `NoMemory` the member is dropped, and the list is as before.
    pub fn push(&mut self, member: T) -> Result<(), NoMemory>
        ensures ok { OnOk result (self.new ≡ self.old ++ member ∷ []) }
        ensures err { OnErr result (self.new ≡ self.old) }
    {
        self.members.push(member)?;
        Ok(())
    }

    /// How many members there are.
    pub fn len(&self) -> usize
        ensures { result ≡ length self.now }
    {
        self.members.len()
    }

    /// Whether there is no member.
    pub fn is_empty(&self) -> bool
        ensures { IsTrue result ↔ (self.now ≡ []) }
    {
        self.members.is_empty()
    }

    /// The member at that place, counted from 0; `None` past the end.
    pub fn get(&self, k: usize) -> Option<&T>
        ensures { option_copied result ≡ slice_get self.now k }
    {
        self.members.get(k)
    }
}

/// A list of octets.
#[derive(Drop)]
pub struct Octets {
    octets: Vec<u8>,
}

impl Model for Octets {
    ghost use Rattle.std.specs.Prelude.{List, ℕ};

    ghost Value = { List ℕ };

    ghost view = { λ l. l.octets.items };
}

impl Octets {
    /// The empty list.
    pub fn new(alloc: Global) -> Octets
        ensures { result ≡ [] }
    {
        Octets {
            octets: Vec::new(alloc),
        }
    }

    /// Appends an octet. After `NoMemory` the list is as before.
    pub fn push(&mut self, member: u8) -> Result<(), NoMemory>
        ensures ok { OnOk result (self.new ≡ self.old ++ member ∷ []) }
        ensures err { OnErr result (self.new ≡ self.old) }
    {
        self.octets.push(member)?;
        Ok(())
    }

    /// How many octets there are.
    pub fn len(&self) -> usize
        ensures { result ≡ length self.now }
    {
        self.octets.len()
    }

    /// The octet at that place, counted from 0; `None` past the end.
    pub fn get(&self, k: usize) -> Option<u8>
        ensures { result ≡ slice_get self.now k }
    {
        self.octets.get(k).copied()
    }

    /// The list of these octets.
    pub fn from_vec(octets: Vec<u8>) -> Octets
        ensures { result ≡ octets.items }
    {
        Octets { octets }
    }

    /// Lends the whole.
    pub fn bytes(&self) -> &[u8]
        ensures { result.now ≡ self.now }
    {
        &self.octets
    }
}

/// A text, seen as the list of its characters.
#[derive(Drop)]
pub struct Text {
    text: String,
}

impl Model for Text {
    ghost use Rattle.std.specs.Prelude.{List, ℕ, string_bytes};
    ghost use Rattle.std.specs.Str.{chars};

    ghost Value = { List ℕ };

    ghost view = { λ l. chars (string_bytes l.text) };
}

impl Text {
    /// The text of these characters.
    pub fn from_str(alloc: Global, text: &str) -> Result<Text, NoMemory>
        ensures { IfOk result (λ t. t ≡ chars text.now) }
    {
        Ok(Text {
            text: String::from_str(alloc, text)?,
        })
    }

    /// The text of that string, which is moved: no memory is taken.
    pub fn from_string(text: String) -> Text
        ensures { result ≡ chars (string_bytes text) }
    {
        Text { text }
    }

    /// The empty text.
    pub fn new(alloc: Global) -> Text
        ensures { result ≡ [] }
    {
        Text {
            text: String::new(alloc),
        }
    }

    /// Appends a character. After `NoMemory` the list is as before.
    pub fn push(&mut self, member: char) -> Result<(), NoMemory>
        ensures ok { OnOk result (self.new ≡ self.old ++ member ∷ []) }
        ensures err { OnErr result (self.new ≡ self.old) }
    {
        self.text.push(member)?;
        Ok(())
    }

    /// How many characters there are.
    pub fn len(&self) -> usize
        ensures { result ≡ length self.now }
    {
        self.text.as_str().chars().count()
    }

    /// The character at that place, counted from 0; `None` past the end.
    pub fn get(&self, k: usize) -> Option<char>
        ensures { result ≡ slice_get self.now k }
    {
        self.text.as_str().chars().nth(k)
    }

    /// Lends the whole.
    pub fn as_str(&self) -> &str
        ensures characters { chars result.now ≡ self.now }
        ensures bytes { result.now ≡ encode_utf8_all self.now }
    {
        self.text.as_str()
    }
}

/// A list of numbers.
#[derive(Drop)]
pub struct Numbers {
    numbers: Vec<u64>,
}

impl Model for Numbers {
    ghost use Rattle.std.specs.Prelude.{List, ℕ};

    ghost Value = { List ℕ };

    ghost view = { λ l. l.numbers.items };
}

impl Numbers {
    /// The empty list.
    pub fn new(alloc: Global) -> Numbers
        ensures { result ≡ [] }
    {
        Numbers {
            numbers: Vec::new(alloc),
        }
    }

    /// Appends a number. After `NoMemory` the list is as before.
    pub fn push(&mut self, member: u64) -> Result<(), NoMemory>
        ensures ok { OnOk result (self.new ≡ self.old ++ member ∷ []) }
        ensures err { OnErr result (self.new ≡ self.old) }
    {
        self.numbers.push(member)?;
        Ok(())
    }

    /// How many numbers there are.
    pub fn len(&self) -> usize
        ensures { result ≡ length self.now }
    {
        self.numbers.len()
    }

    /// Lends the whole.
    pub fn as_slice(&self) -> &[u64]
        ensures { result.now ≡ self.now }
    {
        &self.numbers
    }

    /// The number at that place, counted from 0; `None` past the end.
    pub fn get(&self, k: usize) -> Option<u64>
        ensures { result ≡ slice_get self.now k }
    {
        self.numbers.get(k).copied()
    }
}

/// The prefixes of an InclusiveNamespaces element, in order (Exclusive XML Canonicalization 1.0 §3).
pub type PrefixList = Members<Text>;

/// A list of lists of octets.
pub type OctetsList = Members<Octets>;

/// The views of a validation, in the order of their References: the length of each, and its octets where they were kept.
/// Where they were not, `octets` is empty.
#[derive(Drop)]
pub struct Views {
    /// The length of each view, in octets.
    pub lengths: Numbers,
    /// The octets of each view, or nothing.
    pub octets: OctetsList,
}
