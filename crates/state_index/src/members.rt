// Interfaces by VLAN.
ghost use Rattle.std.specs.Prelude.{◌≡◌, ℕ, [], List, IfOk};
ghost use Rattle.std.specs.Option.{option_copied};
ghost use Rattle.std.specs.Ordering.{nat_cmp};
ghost use Rattle.keyed.specs.Keyed.{at, Ascends};
ghost use Rattle.keyed.specs.Sets.{delete, insert};
ghost use Rattle.net_types.specs.Range.{IsIntf};
ghost use Rattle.switch_model.specs.declared.record.IntfRec.{IntfRec};
ghost use Rattle.state_keys.specs.Bits.{field};
ghost use Rattle.state_index.specs.MemberKey.{IsMember, IsFirstMember, member_cmp, member_in, member_number};
ghost use Rattle.state_index.specs.MemberList.{cut_member, is_in, lost, members_in, put_member};
ghost use Rattle.subnet_index.specs.Index.{entry_changed};

use key_set::{KeySet, NodeKey};
use net_types::{Intf, NoMemory, Vlan};
use node_core::Forge;
use state_keys::{is_in_vlan, vlan_key};
use std::marker::Model;
use switch_model::IntfRec;

/// An interface with its VLAN.
#[derive(Clone, Copy, Debug)]
pub struct Member {
    pub vlan: Vlan,
    pub intf: Intf,
}

/// The key of an interface in its VLAN: 16 bits of VLAN, 32 of interface.
pub fn member_key(member: &Member) -> NodeKey
    ensures key { result ≡ member_number member.now }
    ensures range { IsMember member.now }
{
    let intf = u64::from(member.intf.get());
    NodeKey::new((u64::from(member.vlan.get()) << 48) + (intf << 16), 0)
}

/// The interfaces, by VLAN and number. It is shared and never changed: a change gives a new index.
#[derive(Drop)]
pub struct Members {
    keys: KeySet,
}

impl Model for Members {
    ghost use Rattle.std.specs.Prelude.{List, All, map};
    ghost use Rattle.state_index.specs.declared.members.Member.{Member};
    ghost use Rattle.state_index.specs.MemberKey.{IsMemberNumber, member_at};

    ghost Value = { List Member };

    ghost view = { λ m. map member_at m.keys };

    ghost invariant = { λ m. All IsMemberNumber m.keys };
}

impl Members {
    /// No interfaces.
    pub fn new() -> Members
        ensures { result ≡ members_in [] }
    {
        Members {
            keys: KeySet::new(),
        }
    }

    /// One more owner of the same index.
    pub fn share(&self) -> Result<Members, NoMemory>
        ensures { IfOk result (λ m. m ≡ self.now) }
    {
        let _ = &self.keys;
        let keys = self.keys.share()?;
        Ok(Members { keys })
    }

    /// The index once the interface under the number has the new record in place of the old one,
    /// where there are any. An interface that stays in its VLAN isn't touched. After a refusal of
    /// memory the index is as it was.
    pub fn change(
        &self,
        forge: &Forge,
        intf: Intf,
        old: Option<&IntfRec>,
        new: Option<&IntfRec>,
    ) -> Result<Members, NoMemory>
        ensures { (intfs : List (ℕ × IntfRec)) → Ascends nat_cmp intfs → self.now ≡ members_in intfs → at nat_cmp intf intfs ≡ option_copied old.entry → IfOk result (λ m. m ≡ members_in (entry_changed nat_cmp intf (option_copied new.entry) intfs)) }
    {
        let rest = self.without_old(forge, intf, old, new)?;
        let index = rest.with_new(forge, intf, old, new)?;
        Ok(index)
    }

    /// The interface of the VLAN with the least number. It takes no memory.
    pub fn first_of(&self, vlan: Vlan) -> Option<Intf>
        ensures { IsFirstMember vlan self.now result }
    {
        let _ = &self.keys;
        match self.keys.after(&vlan_key(vlan)) {
            Some(key) => member_in(key, vlan),
            None => None,
        }
    }

    // The index without the interface in its old VLAN, unless it stays there.
    fn without_old(
        &self,
        forge: &Forge,
        intf: Intf,
        old: Option<&IntfRec>,
        new: Option<&IntfRec>,
    ) -> Result<Members, NoMemory>
        ensures { IfOk result (λ m. m ≡ cut_member intf (option_copied old.entry) (option_copied new.entry) self.now) }
    {
        let Some(vlan) = lost(old, new) else {
            let index = self.share()?;
            return Ok(index);
        };
        let index = self.without(forge, &Member { vlan, intf })?;
        Ok(index)
    }

    // The index with the interface in its new VLAN, unless it was there.
    fn with_new(
        &self,
        forge: &Forge,
        intf: Intf,
        old: Option<&IntfRec>,
        new: Option<&IntfRec>,
    ) -> Result<Members, NoMemory>
        ensures { IfOk result (λ m. m ≡ put_member intf (option_copied old.entry) (option_copied new.entry) self.now) }
    {
        let Some(vlan) = lost(new, old) else {
            let index = self.share()?;
            return Ok(index);
        };
        let index = self.with(forge, &Member { vlan, intf })?;
        Ok(index)
    }

    // The index with the interface in a VLAN.
    fn with(&self, forge: &Forge, member: &Member) -> Result<Members, NoMemory>
        ensures { IfOk result (λ m. m ≡ insert member_cmp member.now self.now) }
    {
        let keys = self.keys.with(forge, member_key(member))?;
        Ok(Members { keys })
    }

    // The index without the interface in a VLAN.
    fn without(&self, forge: &Forge, member: &Member) -> Result<Members, NoMemory>
        ensures { IfOk result (λ m. m ≡ delete member_cmp member.now self.now) }
    {
        let keys = self.keys.without(forge, &member_key(member))?;
        Ok(Members { keys })
    }
}

// The VLAN of the first record that the second one isn't in.
fn lost(one: Option<&IntfRec>, other: Option<&IntfRec>) -> Option<Vlan>
    ensures { result ≡ lost (option_copied one.entry) (option_copied other.entry) }
{
    match one {
        Some(rec) if !is_in(other, rec.vlan) => Some(rec.vlan),
        _ => None,
    }
}

fn is_in(rec: Option<&IntfRec>, vlan: Vlan) -> bool
    ensures { result ≡ is_in (option_copied rec.entry) vlan }
{
    match rec {
        Some(rec) => rec.vlan == vlan,
        None => false,
    }
}

// The interface whose key it is, where it is in the VLAN.
fn member_in(key: &NodeKey, vlan: Vlan) -> Option<Intf>
    requires { IsIntf (field 16 32 key.now) }
    ensures { result ≡ member_in vlan key.now }
{
    if !is_in_vlan(key, vlan) {
        return None;
    }
    Intf::new(((key.hi() >> 16) % (1 << 32)) as u32)
}
