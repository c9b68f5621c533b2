// Entries with a nonce.
ghost use Rattle.std.specs.Prelude.{◌≡◌, ◌∷◌, [], ℕ, ℤ, true, IfOk, OnOk, OnErr, drop, option_map, slice_get, if◌then◌else◌};

use dk_base::{List, NoMemory, Value};
use indexmap::IndexMap;
use std::alloc::Global;

/// Entries that wait with a nonce: the values of those of each point and nonce, the latest last.
#[derive(Drop)]
pub(crate) struct Nonces {
    pub(crate) alloc: Global,
    pub(crate) table: IndexMap<(u32, i64), Vec<List<Value>>>,
}

impl Nonces {
    ghost use Rattle.dk_calls.specs.Nonces.{same_key, values_under};

    /// No entry waits yet.
    #[tactic(auto, unfolding(crate::specs::Nonces::values_under))]
    pub(crate) fn new(alloc: Global) -> Nonces
        ensures { (q : ℕ) (m : ℤ) → values_under q m result ≡ [] }
    {
        Nonces {
            alloc,
            table: IndexMap::new(alloc),
        }
    }

    /// The values of the latest entry of the point and the nonce that the key holds.
    #[tactic(auto, unfolding(crate::specs::Nonces::values_under))]
    pub(crate) fn latest(&self, key: (u32, i64)) -> Option<&List<Value>>
        ensures { option_map (λ values. values.now) result ≡ slice_get (values_under key.0 key.1 self.now) 0 }
    {
        match self.table.get(&key) {
            None => None,
            Some(entries) => entries.last(),
        }
    }

    /// The entry waits. A refused call leaves the others as they were.
    #[tactic(auto, unfolding(crate::specs::Nonces::values_under))]
    pub(crate) fn push(&mut self, key: (u32, i64), values: List<Value>) -> Result<(), NoMemory>
        ensures ok { OnOk result ((q : ℕ) (m : ℤ) → values_under q m self.new ≡ (if same_key key (q, m) then values ∷ values_under q m self.old else values_under q m self.old)) }
        ensures err { OnErr result ((q : ℕ) (m : ℤ) → values_under q m self.new ≡ values_under q m self.old) }
    {
        if let Some(entries) = self.table.get_mut(&key) {
            entries.push(values)?;
            return Ok(());
        }
        let entries = one_of(self.alloc, values)?;
        match self.table.insert(key, entries) {
            Ok(_) => Ok(()),
            Err(_) => Err(NoMemory),
        }
    }

    /// Takes the latest entry of the point and the nonce that the key holds.
    #[tactic(auto, unfolding(crate::specs::Nonces::values_under))]
    pub(crate) fn pop(&mut self, key: (u32, i64))
        ensures { (q : ℕ) (m : ℤ) → values_under q m self.new ≡ (if same_key key (q, m) then drop 1 (values_under q m self.old) else values_under q m self.old) }
    {
        if self.pop_of(key) {
            self.table.swap_remove(&key);
        }
    }

    // Takes the latest entry of the key, and tells whether there is no other.
    #[tactic(auto, unfolding(crate::specs::Nonces::values_under))]
    fn pop_of(&mut self, key: (u32, i64)) -> bool
        ensures held { (q : ℕ) (m : ℤ) → values_under q m self.new ≡ (if same_key key (q, m) then drop 1 (values_under q m self.old) else values_under q m self.old) }
        ensures none { result ≡ true → values_under key.0 key.1 self.new ≡ [] }
    {
        match self.table.get_mut(&key) {
            None => false,
            Some(entries) => {
                let _ = entries.pop();
                entries.is_empty()
            }
        }
    }

    /// Forgets all entries that wait.
    #[tactic(auto, unfolding(crate::specs::Nonces::values_under))]
    pub(crate) fn clear(&mut self)
        ensures { (q : ℕ) (m : ℤ) → values_under q m self.new ≡ [] }
    {
        self.table.clear();
    }
}

fn one_of(alloc: Global, values: List<Value>) -> Result<Vec<List<Value>>, NoMemory>
    ensures { IfOk result (λ entries. entries.items ≡ values ∷ []) }
{
    let mut entries = Vec::new(alloc);
    entries.push(values)?;
    Ok(entries)
}
