// The first table whose rows differ.
ghost use Rattle.std.specs.Prelude.{◌≡◌, ◌↔◌, IfSome, None};
ghost use Rattle.std.specs.Bool.{beq};
ghost use Rattle.std.specs.Cmp.Lexicographic.{pointwise};
ghost use Rattle.net_types.specs.Differ.{same_host, same_l2, same_target};
ghost use Rattle.net_types.specs.KeyOrder.{group_cmp, host_cmp, l2_cmp, route_cmp};
ghost use Rattle.chip_rows.specs.Difference.{SameBefore, SameIn, first_differing, same_entries};

use crate::lists::RowLists;
use chip_core::MarkList;
use net_types::{HopTarget, HostKey, HostKeyList, HostRow, ItemList, L2RowList, RouteKey, Table};

/// The first table, in the order l2, host, group, route, whose rows differ: none exactly where all
/// rows are equal.
pub fn first_difference(a: &RowLists, b: &RowLists) -> Option<Table>
    ensures first { result ≡ first_differing a.now b.now }
    ensures none { (result ≡ None) ↔ (a.now ≡ b.now) }
    ensures differs { IfSome result (λ table. ¬ SameIn table a.now b.now) }
    ensures before { IfSome result (λ table. SameBefore table a.now b.now) }
{
    first_unlike(a, b)
}

/// The first table that isn't the same in both.
fn first_unlike(a: &RowLists, b: &RowLists) -> Option<Table>
    ensures { result ≡ first_differing a.now b.now }
{
    if !are_l2_same(a.l2(), b.l2()) {
        return Some(Table::L2);
    }
    if !are_hosts_same(a.host(), b.host()) {
        return Some(Table::Host);
    }
    if !are_groups_same(a.group(), b.group()) {
        return Some(Table::Group);
    }
    if !are_routes_same(a.route(), b.route()) {
        return Some(Table::Route);
    }
    None
}

fn are_l2_same(a: &L2RowList, b: &L2RowList) -> bool
    ensures { result ≡ same_entries l2_cmp same_l2 a.now b.now }
{
    a == b
}

fn are_hosts_same(a: &ItemList<(HostKey, HostRow)>, b: &ItemList<(HostKey, HostRow)>) -> bool
    ensures { result ≡ same_entries host_cmp same_host a.now b.now }
{
    a == b
}

fn are_groups_same(
    a: &ItemList<(HostKeyList, MarkList)>,
    b: &ItemList<(HostKeyList, MarkList)>,
) -> bool
    ensures { result ≡ same_entries group_cmp (pointwise beq) a.now b.now }
{
    a == b
}

fn are_routes_same(a: &ItemList<(RouteKey, HopTarget)>, b: &ItemList<(RouteKey, HopTarget)>) -> bool
    ensures { result ≡ same_entries route_cmp same_target a.now b.now }
{
    a == b
}
