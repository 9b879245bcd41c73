//! What readers of a tree share. After the Rust's `reader_context`.
ghost use Rattle.std.specs.Prelude.{◌≡◌, IfOk, option_map};
ghost use Rattle.std.specs.Arc.{arc_value};
ghost use Rattle.std.specs.FinMap as map;

use scan_values::NoMemory;
use std::alloc::Global;
use std::collections::BTreeMap;
use std::marker::Model;
use std::sync::Arc;

/// Shared values by the caller's ids. Contracts see it as a finite map from ids to values.
#[derive(Drop)]
pub struct LayoutReaderContext<V> {
    entries: BTreeMap<u32, Arc<V>>,
}

impl<V> Model for LayoutReaderContext<V> {
    ghost use Rattle.scan_layout.specs.Contexts.{Context, context_code, seen};

    ghost Value = { Context V };

    ghost coded = { context_code V.code };

    ghost view = { λ a. seen a.entries.entries };
}

impl<V: Drop> LayoutReaderContext<V> {
    /// The context without ids.
    pub fn new(alloc: Global) -> Self
        ensures { result ≡ map.empty }
    {
        LayoutReaderContext {
            entries: BTreeMap::new(alloc),
        }
    }

    /// This context with one id set. This one stays as it is.
    pub fn with(&self, alloc: Global, id: u32, value: Arc<V>) -> Result<Self, NoMemory>
        ensures { IfOk result (λ c. c ≡ map.insert self.now id (arc_value value)) }
    {
        let mut context = self.try_clone(alloc)?;
        context.entries.insert(id, value)?;
        Ok(context)
    }

    /// The value of an id.
    pub fn get(&self, id: u32) -> Option<&Arc<V>>
        ensures { option_map (λ r. arc_value r.now) result ≡ map.get self.now id }
    {
        self.entries.get(&id)
    }

    /// The same context. Its values are shared.
    pub fn try_clone(&self, _alloc: Global) -> Result<Self, NoMemory>
        ensures { IfOk result (λ c. c ≡ self.now) }
    {
        let entries = self.entries.clone()?;
        Ok(LayoutReaderContext { entries })
    }
}
