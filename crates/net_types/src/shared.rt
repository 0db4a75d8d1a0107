// Values that are shared.
ghost use Rattle.std.specs.Prelude.{◌≡◌, IfOk};

use crate::NoMemory;
use std::alloc::Global;
use std::cmp::Ordering;
use std::hash::{Hash, Hasher};
use std::marker::Model;
use std::ops::Deref;
use std::sync::Arc;

/// A value that several owners share, in any threads, and that nobody changes. Contracts see the
/// value itself. One more owner costs one link, whatever the size of the value.
#[derive(Debug, Drop)]
pub struct Shared<T> {
    link: Arc<T>,
}

impl<T> Model for Shared<T> {
    ghost Value = { T };

    ghost view = { λ s. s.link.value };
}

impl<T> Shared<T> {
    /// One more owner of the value.
    pub fn share(&self) -> Result<Shared<T>, NoMemory>
        ensures same { IfOk result (λ other. other ≡ self.now) }
    {
        Ok(Shared {
            link: Arc::try_clone(&self.link)?,
        })
    }

    pub fn get(&self) -> &T
        ensures value { result.now ≡ self.now }
    {
        &self.link
    }
}

impl<T: Drop> Shared<T> {
    /// The value with one owner. After a refusal the value is dropped.
    pub fn of(alloc: Global, value: T) -> Result<Shared<T>, NoMemory>
        ensures value { IfOk result (λ shared. shared ≡ value) }
    {
        Ok(Shared {
            link: Arc::new(alloc, value)?,
        })
    }
}

impl<T> Deref for Shared<T> {
    type Target = T;

    ghost deref_gives = { λ s x. x ≡ s };

    fn deref(&self) -> &T
        ensures { result.now ≡ self.now }
    {
        self.get()
    }
}

/// Two are equal where their values are.
impl<T: PartialEq> PartialEq for Shared<T> {
    ghost eq = { T.eq };

    ghost laws = { T.laws };

    fn eq(&self, other: &Self) -> bool {
        self.get() == other.get()
    }
}

impl<T: Eq> Eq for Shared<T> {
    ghost laws = { T.Eq.laws };
}

/// They are ordered as their values are.
impl<T: PartialOrd> PartialOrd for Shared<T> {
    ghost partial_cmp = { T.partial_cmp };

    ghost laws = { T.PartialOrd.laws };

    fn partial_cmp(&self, other: &Self) -> Option<Ordering> {
        self.get().partial_cmp(other.get())
    }
}

impl<T: Ord> Ord for Shared<T> {
    ghost cmp = { T.cmp };

    ghost total = { T.total };

    ghost matches_partial_cmp = { T.matches_partial_cmp };

    ghost matches_eq = { T.matches_eq };

    fn cmp(&self, other: &Self) -> Ordering {
        self.get().cmp(other.get())
    }
}

impl<T: Hash> Hash for Shared<T> {
    ghost hash_input = { T.hash_input };

    ghost respects_eq = { T.respects_eq };

    fn hash<H: Hasher>(&self, state: &mut H) {
        self.get().hash(state);
    }
}
