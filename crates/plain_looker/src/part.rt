// One part of a state.
ghost use Rattle.std.specs.Prelude.{◌≡◌, [], OnErr, OnOk, option_copied};
ghost use Rattle.keyed.specs.Keyed.{at, put, without, Ascends};

use net_types::NoMemory;
use std::alloc::Global;
use std::marker::Model;

/// Entries by ascending key.
#[derive(Debug, Drop)]
pub struct Part<K: Ord, V> {
    entries: Vec<(K, V)>,
}

impl<K: Ord, V> Model for Part<K, V> {
    ghost use Rattle.std.specs.Prelude.{List};
    ghost use Rattle.keyed.specs.Keyed.{Ascends};

    ghost Value = { List (K × V) };

    ghost view = { λ p. p.entries.items };

    ghost invariant = { λ p. Ascends K.cmp p.entries.items };
}

impl<K: Ord, V> Part<K, V> {
    pub fn new(alloc: Global) -> Self
        ensures { result ≡ [] }
    {
        Part {
            entries: Vec::new(alloc),
        }
    }

    pub fn get(&self, key: &K) -> Option<&V>
        ensures { option_copied result ≡ at K.cmp key.now self.now }
    {
        keyed::get(self.entries.as_slice(), key)
    }

    pub fn entries(&self) -> &[(K, V)]
        ensures { result.now ≡ self.now }
    {
        self.entries.as_slice()
    }
}

impl<K: Ord + Drop, V: Drop> Part<K, V> {
    /// Puts an entry under its key, in the place of the one that is there. After a refusal of
    /// memory the part is as before.
    pub fn put(&mut self, key: K, value: V) -> Result<(), NoMemory>
        ensures ok { OnOk result (self.new ≡ put K.cmp key value self.old) }
        ensures err { OnErr result (self.new ≡ self.old) }
    {
        keyed::put(&mut self.entries, key, value)
    }

    /// Takes the entry under a key away, where there is one.
    pub fn cut(&mut self, key: &K)
        ensures { self.new ≡ without K.cmp key.now self.old }
    {
        let _ = keyed::cut(&mut self.entries, key);
    }
}
