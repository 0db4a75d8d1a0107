// Whether a host or a group has a row, by the FIB keys of one hop.
ghost use Rattle.std.specs.Prelude.{◌≡◌, List};
ghost use Rattle.net_types.specs.declared.table.HostKey.{HostKey};
ghost use Rattle.row_laws.specs.Hops.{is_group_by_hop, is_host_by_hop};
ghost use Rattle.row_laws.specs.RowAt.{is_group, is_host};
ghost use Rattle.switch_model.specs.PlainState.{PlainState};

/// The FIB keys that have a host as a hop tell whether some entry forwards to it, and those that have
/// the first host of a list tell whether some entry forwards to just that list. So an index of FIB keys
/// by hop serves for both, and no walk over the FIB is needed.
pub fn hop_keys_tell_hosts_and_groups()
    ensures host { (m : PlainState) (host : HostKey) → is_host m host ≡ is_host_by_hop m host }
    ensures group { (m : PlainState) (hosts : List HostKey) → is_group m hosts ≡ is_group_by_hop m hosts }
{}
