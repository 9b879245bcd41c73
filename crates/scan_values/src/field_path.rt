// Paths to nested fields, after the crate's `vortex_array::dtype::field_path`.
ghost use Rattle.std.specs.Prelude.{◌≡◌, [], ◌==◌, length, IfOk, option_map};
ghost use Rattle.scan_values.specs.FieldPaths.{matches_all, starting_field, stepped};

use crate::memory::NoMemory;
use crate::text::FieldName;
use std::alloc::Global;
use std::marker::Model;

/// The names from a root down to a nested field.
#[derive(Drop)]
pub struct FieldPath {
    names: Vec<FieldName>,
    start: usize,
}

impl Model for FieldPath {
    ghost use Rattle.std.specs.Prelude.{◌≤◌, ℕ, List, drop, length};

    ghost Value = { List (List ℕ) };

    ghost view = { λ a. drop a.start a.names.items };

    ghost invariant = { λ a. a.start ≤ length a.names.items };
}

impl FieldPath {
    /// The path without names.
    pub fn root(alloc: Global) -> FieldPath
        ensures { result ≡ [] }
    {
        FieldPath {
            names: Vec::new(alloc),
            start: 0,
        }
    }

    /// The path of these names, from the root down.
    pub fn from_names(names: Vec<FieldName>) -> FieldPath
        ensures { result ≡ names.items }
    {
        FieldPath { names, start: 0 }
    }

    /// Whether the path has no name.
    pub fn is_root(&self) -> bool
        ensures { result ≡ (length self.now == 0) }
    {
        self.start == self.names.len()
    }

    /// The names, from the root down.
    pub fn names(&self) -> &[FieldName]
        ensures { result.now ≡ self.now }
    {
        &self.names[self.start..]
    }

    /// A copy that equals this one.
    pub fn try_clone(&self, alloc: Global) -> Result<FieldPath, NoMemory>
        ensures { IfOk result (λ p. p ≡ self.now) }
    {
        let from = self.names();
        let mut names = Vec::with_capacity(alloc, from.len())?;
        for name in from {
            names.push(name.try_clone(alloc)?)?;
        }
        Ok(FieldPath { names, start: 0 })
    }
}

/// The fields that are asked for: all, or those below a path.
#[derive(Drop)]
pub enum FieldMask {
    All,
    Prefix(FieldPath),
}

impl FieldMask {
    /// Whether every field is asked for.
    pub fn matches_all(&self) -> bool
        ensures { result ≡ matches_all self.now }
    {
        match self {
            FieldMask::All => true,
            FieldMask::Prefix(path) => path.is_root(),
        }
    }

    /// The first name of the path.
    pub fn starting_field(&self) -> Option<&FieldName>
        ensures { option_map (λ n. n.now) result ≡ starting_field self.now }
    {
        match self {
            FieldMask::All => None,
            FieldMask::Prefix(path) => path.names().first(),
        }
    }

    /// The mask below the first name.
    pub fn step_into(self) -> FieldMask
        ensures { result ≡ stepped self }
    {
        match self {
            FieldMask::All => FieldMask::All,
            FieldMask::Prefix(path) => {
                let FieldPath { names, start } = path;
                if start + 1 < names.len() {
                    FieldMask::Prefix(FieldPath {
                        names,
                        start: start + 1,
                    })
                } else {
                    FieldMask::All
                }
            }
        }
    }

    /// A copy that equals this one.
    pub fn try_clone(&self, alloc: Global) -> Result<FieldMask, NoMemory>
        ensures { IfOk result (λ m. m ≡ self.now) }
    {
        match self {
            FieldMask::All => Ok(FieldMask::All),
            FieldMask::Prefix(path) => Ok(FieldMask::Prefix(path.try_clone(alloc)?)),
        }
    }
}
