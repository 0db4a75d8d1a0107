// Arrays of so many items, and numbers in a range.
ghost use Rattle.std.specs.Prelude.{◌≡◌, ◌≤◌, IfSome, option_map};
ghost use Rattle.serde_json.specs.View.{items_view, view};
ghost use Rattle.json_form.specs.Arrays.{number_of, one_of, two_of, three_of, four_items, four_of, five_of};

use serde_json::Value;

/// The number, where it is a whole one from `low` to `high`.
pub fn number(value: &Value, low: u64, high: u64) -> Option<u64>
    ensures value { result ≡ number_of low high (view value.now) }
    ensures range { IfSome result (λ n. (low ≤ n) × (n ≤ high)) }
{
    let number = value.as_u64()?;
    if low <= number && number <= high {
        Some(number)
    } else {
        None
    }
}

/// The item of an array of one.
#[tactic(auto, using(crate::proofs::Arity::one_none))]
pub fn single(value: &Value) -> Option<&Value>
    ensures { option_map (λ v. view v.now) result ≡ one_of (view value.now) }
{
    let [item] = value.as_array()?.as_slice() else {
        return None;
    };
    Some(item)
}

/// The items of an array of two.
#[tactic(auto, using(crate::proofs::Arity::two_none))]
pub fn pair(value: &Value) -> Option<(&Value, &Value)>
    ensures { option_map (λ p. (view p.0.now, view p.1.now)) result ≡ two_of (view value.now) }
{
    let [a, b] = value.as_array()?.as_slice() else {
        return None;
    };
    Some((a, b))
}

/// The items of an array of three.
#[tactic(auto, using(crate::proofs::Arity::three_none))]
pub fn three(value: &Value) -> Option<(&Value, &Value, &Value)>
    ensures { option_map (λ p. (view p.0.now, view p.1.now, view p.2.now)) result ≡ three_of (view value.now) }
{
    let [a, b, c] = value.as_array()?.as_slice() else {
        return None;
    };
    Some((a, b, c))
}

/// The items of an array of four.
#[tactic(auto, using(crate::proofs::Arity::four_none))]
pub fn four(value: &Value) -> Option<(&Value, &Value, &Value, &Value)>
    ensures { option_map (λ p. (view p.0.now, view p.1.now, view p.2.now, view p.3.now)) result ≡ four_of (view value.now) }
{
    let [a, b, c, d] = value.as_array()?.as_slice() else {
        return None;
    };
    Some((a, b, c, d))
}

/// The items of an array of five.
#[tactic(auto, using(crate::proofs::Arity::five_none, crate::proofs::Arity::five_found))]
pub fn five(value: &Value) -> Option<(&Value, &Value, &Value, &Value, &Value)>
    ensures { option_map (λ p. (view p.0.now, view p.1.now, view p.2.now, view p.3.now, view p.4.now)) result ≡ five_of (view value.now) }
{
    let items = value.as_array()?.as_slice();
    let (first, rest) = items.split_first()?;
    let (b, c, d, e) = quartet(rest)?;
    Some((first, b, c, d, e))
}

#[tactic(auto, using(crate::proofs::Arity::four_none))]
fn quartet(items: &[Value]) -> Option<(&Value, &Value, &Value, &Value)>
    ensures { option_map (λ p. (view p.0.now, view p.1.now, view p.2.now, view p.3.now)) result ≡ four_items (items_view items.now) }
{
    let [a, b, c, d] = items else {
        return None;
    };
    Some((a, b, c, d))
}
