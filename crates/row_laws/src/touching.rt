// Which rows a change can touch.
ghost use Rattle.keyed.specs.Keyed.{at, Ascends};
ghost use Rattle.net_types.specs.KeyOrder.{l2_cmp, host_cmp, group_cmp, route_cmp};
ghost use Rattle.row_laws.specs.Touching.{AreDifferences, DifferOnlyAt, Differences, l2_touched, host_touched, group_touched, route_touched};
ghost use Rattle.switch_model.specs.PlainState.{PlainState};
ghost use Rattle.switch_model.specs.Rows.{rows};
ghost use Rattle.switch_model.specs.StateKeys.{neighbor_cmp};

/// A row depends only on what it names: between two states whose differences are listed, the rows of
/// each table differ only at the keys that those differences can touch.
pub fn rows_differ_only_where_touched()
    ensures l2 { (d : Differences) (m n : PlainState) → AreDifferences d m n → DifferOnlyAt (l2_touched n d) (λ k. at l2_cmp k (rows m).l2) (λ k. at l2_cmp k (rows n).l2) }
    ensures host { (d : Differences) (m n : PlainState) → Ascends neighbor_cmp m.neighbors → Ascends neighbor_cmp n.neighbors → AreDifferences d m n → DifferOnlyAt (host_touched m n d) (λ k. at host_cmp k (rows m).host) (λ k. at host_cmp k (rows n).host) }
    ensures group { (d : Differences) (m n : PlainState) → AreDifferences d m n → DifferOnlyAt (group_touched m n d) (λ k. at group_cmp k (rows m).group) (λ k. at group_cmp k (rows n).group) }
    ensures route { (d : Differences) (m n : PlainState) → AreDifferences d m n → DifferOnlyAt (route_touched d) (λ k. at route_cmp k (rows m).route) (λ k. at route_cmp k (rows n).route) }
{}
