// The row under one key.
ghost use Rattle.std.specs.Prelude.{◌≡◌, List};
ghost use Rattle.keyed.specs.Keyed.{at, Ascends};
ghost use Rattle.net_types.specs.declared.table.HostKey.{HostKey};
ghost use Rattle.net_types.specs.declared.table.L2Key.{L2Key};
ghost use Rattle.net_types.specs.declared.table.RouteKey.{RouteKey};
ghost use Rattle.net_types.specs.KeyOrder.{l2_cmp, host_cmp, group_cmp, route_cmp};
ghost use Rattle.row_laws.specs.RowAt.{l2_row_at, host_row_at, group_row_at, route_row_at};
ghost use Rattle.switch_model.specs.PlainState.{PlainState};
ghost use Rattle.switch_model.specs.Rows.{rows};
ghost use Rattle.switch_model.specs.StateKeys.{neighbor_cmp};

/// Each table has under a key just what look-ups of the state give: a station's row where it has a
/// record, a host's row exactly for the neighbours and what entries forward to, a group exactly where
/// some entry forwards to just its hosts, and a route where the FIB has an entry.
pub fn rows_by_key()
    ensures l2 { (m : PlainState) (key : L2Key) → at l2_cmp key (rows m).l2 ≡ l2_row_at m key }
    ensures host { (m : PlainState) (key : HostKey) → Ascends neighbor_cmp m.neighbors → at host_cmp key (rows m).host ≡ host_row_at m key }
    ensures group { (m : PlainState) (key : List HostKey) → at group_cmp key (rows m).group ≡ group_row_at m key }
    ensures route { (m : PlainState) (key : RouteKey) → at route_cmp key (rows m).route ≡ route_row_at m key }
{}
