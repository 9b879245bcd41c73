// Texts and names of fields, after the crate's `vortex_array::dtype::FieldName`.
ghost use Rattle.std.specs.Prelude.{◌≡◌, [], IfOk, string_bytes, bytes_eq};
ghost use Rattle.scan_values.specs.NameFaults.{has_name, names_fault};

use crate::memory::NoMemory;
use std::alloc::Global;
use std::collections::BTreeSet;
use std::hash::{Hash, Hasher};
use std::marker::Model;
use thiserror::Error;

/// A text.
#[derive(Drop)]
pub struct Text {
    inner: String,
}

impl Model for Text {
    ghost use Rattle.std.specs.Prelude.{ℕ, List, string_bytes};

    ghost Value = { List ℕ };

    ghost view = { λ a. string_bytes a.inner };
}

impl Text {
    /// The text of a string, which takes no memory.
    pub fn new(inner: String) -> Text
        ensures { result ≡ string_bytes inner }
    {
        Text { inner }
    }

    /// The text.
    pub fn as_str(&self) -> &str
        ensures { result.now ≡ self.now }
    {
        self.inner.as_str()
    }

    /// A copy that equals this one.
    pub fn try_clone(&self, alloc: Global) -> Result<Text, NoMemory>
        ensures { IfOk result (λ t. t ≡ self.now) }
    {
        let inner = String::from_str(alloc, self.inner.as_str())?;
        Ok(Text { inner })
    }
}

impl PartialEq for Text {
    ghost use Rattle.std.specs.Prelude.{bytes_eq};
    ghost use Rattle.scan_values.specs.Same.{bytes_eq-partial};

    ghost eq = { bytes_eq };

    ghost laws = { bytes_eq-partial };

    fn eq(&self, other: &Text) -> bool {
        self.as_str() == other.as_str()
    }
}

impl Eq for Text {
    ghost use Rattle.scan_values.specs.Same.{bytes_eq-equivalence};

    ghost laws = { bytes_eq-equivalence };
}

impl Hash for Text {
    ghost use Rattle.std.specs.Hash as fed;
    ghost use Rattle.scan_values.specs.Same.{text_Alike};

    ghost hash_input = { fed.str };

    ghost respects_eq = { text_Alike.fed };

    fn hash<H: Hasher>(&self, state: &mut H) {
        self.as_str().hash(state);
    }
}

/// The name of a field, compared by its bytes.
#[derive(Drop)]
pub struct FieldName {
    inner: String,
}

impl Model for FieldName {
    ghost use Rattle.std.specs.Prelude.{ℕ, List, string_bytes};

    ghost Value = { List ℕ };

    ghost view = { λ a. string_bytes a.inner };
}

impl FieldName {
    /// The name that a string is, which takes no memory.
    pub fn new(inner: String) -> FieldName
        ensures { result ≡ string_bytes inner }
    {
        FieldName { inner }
    }

    /// The text.
    pub fn as_str(&self) -> &str
        ensures { result.now ≡ self.now }
    {
        self.inner.as_str()
    }

    /// A copy that equals this one.
    pub fn try_clone(&self, alloc: Global) -> Result<FieldName, NoMemory>
        ensures { IfOk result (λ t. t ≡ self.now) }
    {
        let inner = String::from_str(alloc, self.inner.as_str())?;
        Ok(FieldName { inner })
    }
}

impl FieldName {
    /// Whether the bytes are the same.
    pub fn same(&self, other: &FieldName) -> bool
        ensures { result ≡ bytes_eq self.now other.now }
    {
        self.as_str() == other.as_str()
    }
}

/// A list of names.
#[derive(Drop)]
pub struct Names {
    items: Vec<FieldName>,
}

impl Model for Names {
    ghost use Rattle.std.specs.Prelude.{ℕ, List};

    ghost Value = { List (List ℕ) };

    ghost view = { λ a. a.items.items };
}

impl Names {
    /// The names of a vector, in order, which takes no memory.
    pub fn new(items: Vec<FieldName>) -> Names
        ensures { result ≡ items.items }
    {
        Names { items }
    }

    /// The names as a vector.
    pub fn into_vec(self) -> Vec<FieldName>
        ensures { result.items ≡ self }
    {
        self.items
    }

    /// The names, in order.
    pub fn as_slice(&self) -> &[FieldName]
        ensures { result.now ≡ self.now }
    {
        self.items.as_slice()
    }

    /// A copy that equals this one.
    pub fn try_clone(&self, alloc: Global) -> Result<Names, NoMemory>
        ensures { IfOk result (λ t. t ≡ self.now) }
    {
        let mut items = Vec::with_capacity(alloc, self.items.len())?;
        for name in &self.items {
            items.push(name.try_clone(alloc)?)?;
        }
        Ok(Names { items })
    }
}

impl PartialEq for FieldName {
    ghost use Rattle.std.specs.Prelude.{bytes_eq};
    ghost use Rattle.scan_values.specs.Same.{bytes_eq-partial};

    ghost eq = { bytes_eq };

    ghost laws = { bytes_eq-partial };

    fn eq(&self, other: &FieldName) -> bool {
        self.same(other)
    }
}

impl Eq for FieldName {
    ghost use Rattle.scan_values.specs.Same.{bytes_eq-equivalence};

    ghost laws = { bytes_eq-equivalence };
}

impl Hash for FieldName {
    ghost use Rattle.std.specs.Hash as fed;
    ghost use Rattle.scan_values.specs.Same.{text_Alike};

    ghost hash_input = { fed.str };

    ghost respects_eq = { text_Alike.fed };

    fn hash<H: Hasher>(&self, state: &mut H) {
        self.as_str().hash(state);
    }
}

impl PartialEq for Names {
    ghost use Rattle.scan_values.specs.Same.{same_names, same_names-partial};

    ghost eq = { same_names };

    ghost laws = { same_names-partial };

    fn eq(&self, other: &Names) -> bool {
        self.items == other.items
    }
}

impl Eq for Names {
    ghost use Rattle.scan_values.specs.Same.{same_names-equivalence};

    ghost laws = { same_names-equivalence };
}

impl Hash for Names {
    ghost use Rattle.scan_values.specs.Same.{names_fed, names_Alike};

    ghost hash_input = { names_fed };

    ghost respects_eq = { names_Alike.fed };

    fn hash<H: Hasher>(&self, state: &mut H) {
        self.items.as_slice().hash(state);
    }
}

/// Whether a name is among these.
pub fn has_name(name: &FieldName, names: &[FieldName]) -> bool
    ensures { result ≡ has_name name.now names.now }
{
    for other in names {
        if name.same(other) {
            return true;
        }
    }
    false
}

/// What is wrong with a name: it stood before, or it is reserved.
#[derive(Clone, Copy, PartialEq, Eq, Debug, Error)]
pub enum NameFault {
    #[error("a name is repeated")]
    Repeated,
    #[error("a name is reserved")]
    Reserved,
}

/// The first fault among names. The reserved name is `#validity`.
pub fn names_fault(alloc: Global, names: &[FieldName]) -> Result<Option<NameFault>, NoMemory>
    ensures { IfOk result (λ f. f ≡ names_fault [] names.now) }
{
    let mut seen: BTreeSet<&str> = BTreeSet::new(alloc);
    for name in names {
        if name.as_str() == "#validity" {
            return Ok(Some(NameFault::Reserved));
        }
        if !seen.insert(name.as_str())? {
            return Ok(Some(NameFault::Repeated));
        }
    }
    Ok(None)
}
