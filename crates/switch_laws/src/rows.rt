// The rows of a state, and rows that differ.
ghost use Rattle.std.specs.Prelude.{◌≡◌, ◌+◌, Bool, List, length};
ghost use Rattle.std.specs.Bool.{beq, Decides};
ghost use Rattle.std.specs.Cmp.Lexicographic.{pointwise};
ghost use Rattle.keyed.specs.Differing.{AreDifferingKeys};
ghost use Rattle.net_types.specs.declared.table.HopTarget.{HopTarget};
ghost use Rattle.net_types.specs.declared.table.HostKey.{HostKey};
ghost use Rattle.net_types.specs.declared.table.HostRow.{HostRow};
ghost use Rattle.net_types.specs.declared.table.L2Key.{L2Key};
ghost use Rattle.net_types.specs.declared.table.L2Row.{L2Row};
ghost use Rattle.net_types.specs.declared.table.RouteKey.{RouteKey};
ghost use Rattle.net_types.specs.Closed.{AreGroups, IsClosed};
ghost use Rattle.net_types.specs.Differ.{AscendRows, differ, same_host, same_l2, same_target};
ghost use Rattle.net_types.specs.KeyOrder.{group_cmp, host_cmp, l2_cmp, route_cmp};
ghost use Rattle.net_types.specs.Rows.{Rows};
ghost use Rattle.switch_model.specs.PlainState.{ArePartsInOrder, PlainState};
ghost use Rattle.switch_model.specs.Rows.{rows};

/// The rows of a state whose parts are in order, as those of a sound state are, ascend in each
/// table, and lead to rows that are there. Each group of any state has 2 to 64 distinct hosts in
/// order, and a mark for each.
pub fn rows_are_closed()
    ensures closed { (m : PlainState) → ArePartsInOrder m → IsClosed (rows m) }
    ensures ascend { (m : PlainState) → ArePartsInOrder m → AscendRows (rows m) }
    ensures groups { (m : PlainState) → AreGroups (rows m) }
{}

/// Lists of exactly the keys whose rows differ, table by table, have together as many as the rows
/// differ by.
pub fn rows_that_differ_are_counted()
    ensures { (a b : Rows) (l2 : List L2Key) (host : List HostKey) (group : List (List HostKey)) (route : List RouteKey) →
        AreDifferingKeys l2_cmp l2 a.l2 b.l2 → AreDifferingKeys host_cmp host a.host b.host → AreDifferingKeys group_cmp group a.group b.group → AreDifferingKeys route_cmp route a.route b.route →
        length l2 + length host + length group + length route ≡ differ a b }
{}

/// Rows differ by nothing from themselves, and only from themselves where they ascend; and by as
/// many from others as those from them.
pub fn only_other_rows_differ()
    ensures none { (a : Rows) → differ a a ≡ 0 }
    ensures zero { (a b : Rows) → AscendRows a → AscendRows b → differ a b ≡ 0 → a ≡ b }
    ensures turned { (a b : Rows) → differ a b ≡ differ b a }
{}

/// The tests of whether two rows of a table are the same find exactly those that are.
pub fn tests_of_rows_are_exact()
    ensures l2 { (a b : L2Row) → Decides (same_l2 a b) (a ≡ b) }
    ensures host { (a b : HostRow) → Decides (same_host a b) (a ≡ b) }
    ensures group { (a b : List Bool) → Decides (pointwise beq a b) (a ≡ b) }
    ensures route { (a b : HopTarget) → Decides (same_target a b) (a ≡ b) }
{}
