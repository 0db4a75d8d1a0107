// Lists of rows in an order.
ghost use Rattle.std.specs.Prelude.{◌≡◌, ◌∷◌, ◌++◌, Ok, true, false, Some, None, IfOk, OnOk, OnErr, All, map, option_map};
ghost use Rattle.std.specs.Ordering.{is_lt};
ghost use Rattle.std.specs.declared.cmp.Ordering.{Ordering};
ghost use Rattle.serde_json.specs.Data.{Data, array};
ghost use Rattle.serde_json.specs.View.{view};
ghost use Rattle.json_form.specs.Lists.{added, comes_last, rows_of, rows_json};

use serde_json::Value;
use std::alloc::{AllocError, Global};

/// What reads the rows of a list.
pub trait RowReader {
    ghost use Rattle.std.specs.Prelude.{Option};

    /// What a row says.
    type Row: Drop;

    // The row that a value is, where it is one.
    ghost row_of: { Data → Option Self.Row };

    // The order in which rows stand.
    ghost order: { Self.Row → Self.Row → Ordering };

    /// The row that the item is, where it is one.
    fn read(alloc: Global, item: &Value) -> Result<Option<Self::Row>, AllocError>
        ensures { IfOk result (λ row. row ≡ row_of (view item.now)) };

    /// Whether a row comes before another.
    fn is_before(row: &Self::Row, next: &Self::Row) -> bool
        ensures { result ≡ is_lt (order row.now next.now) };
}

/// What writes the rows of a list.
pub trait RowWriter {
    /// What a row says.
    type Row;

    // The value of a row.
    ghost json_of: { Self.Row → Data };

    // Everything in it is in its range.
    ghost legal: { Self.Row → Type 0 };

    /// The value of the row.
    fn write(alloc: Global, row: &Self::Row) -> Result<Value, AllocError>
        ensures value { IfOk result (λ v. view v ≡ json_of row.now) }
        ensures legal { OnOk result (legal row.now) };
}

/// The rows that the value lists, where it lists rows that strictly ascend.
#[tactic(auto, using(crate::proofs::ReadLists::next_added, crate::proofs::ReadLists::not_added, crate::proofs::ReadLists::none_yet))]
pub fn read_rows<F: RowReader>(
    alloc: Global,
    value: &Value,
) -> Result<Option<Vec<F::Row>>, AllocError>
    ensures { IfOk result (λ rows. option_map (λ v. v.items) rows ≡ rows_of F.row_of F.order (view value.now)) }
{
    let Some(items) = value.as_array() else {
        return Ok(None);
    };
    let mut rows = Vec::new(alloc);
    for item in items {
        if !add::<F>(alloc, &mut rows, item)? {
            return Ok(None);
        }
    }
    Ok(Some(rows))
}

// Puts a row last: not where it is none, or doesn't come after the last one.
fn add<F: RowReader>(
    alloc: Global,
    rows: &mut Vec<F::Row>,
    item: &Value,
) -> Result<bool, AllocError>
    ensures added { result ≡ Ok true → added F.row_of F.order rows.old.items (view item.now) ≡ Some rows.new.items }
    ensures none { result ≡ Ok false → added F.row_of F.order rows.old.items (view item.now) ≡ None }
{
    let Some(row) = F::read(alloc, item)? else {
        return Ok(false);
    };
    if !is_next::<F>(rows.as_slice(), &row) {
        return Ok(false);
    }
    rows.push(row)?;
    Ok(true)
}

#[tactic(auto, using(crate::proofs::ReadLists::comes_after_last, crate::proofs::ReadLists::comes_first))]
fn is_next<F: RowReader>(rows: &[F::Row], row: &F::Row) -> bool
    ensures { result ≡ comes_last F.order rows.now row.now }
{
    match rows.last() {
        Some(last) => F::is_before(last, row),
        None => true,
    }
}

/// The value that lists the rows.
pub fn write_rows<F: RowWriter>(alloc: Global, rows: &[F::Row]) -> Result<Value, AllocError>
    ensures value { IfOk result (λ v. view v ≡ rows_json F.json_of rows.now) }
    ensures legal { OnOk result (All F.legal rows.now) }
{
    let mut items = Vec::new(alloc);
    for row in rows {
        items.push(F::write(alloc, row)?)?;
    }
    Ok(Value::Array(items))
}
