//! The places of declared parts in the text.

ghost use Rattle.std.specs.Prelude.{◌≡◌, [], ◌∷◌, ◌++◌, IfOk, OnOk};
ghost use Rattle.std.specs.Option.{option_map};
ghost use Rattle.tb_aggregates.specs.Orders.{up_to, place_from, place_of, orders_by, orders, order_of};

use sqlite_items::Items;
use std::alloc::{AllocError, Global};

/// There are fewer than 2^32 parts.
fn number_of(place: usize) -> Result<u32, AllocError>
    ensures { IfOk result (λ number. number ≡ place) }
{
    match u32::try_from(place) {
        Ok(number) => Ok(number),
        Err(_) => Err(AllocError),
    }
}

fn push(order: &mut Vec<u32>, place: usize) -> Result<(), AllocError>
    ensures { OnOk result (order.new.items ≡ order.old.items ++ place ∷ []) }
{
    order.push(number_of(place)?)?;
    Ok(())
}

/// The order of so many parts that stand as they are declared.
#[tactic(auto, using(crate::proofs::Counting::one_more))]
pub fn up_to(alloc: Global, count: usize) -> Result<Vec<u32>, AllocError>
    ensures order { IfOk result (λ order. order.items ≡ up_to count) }
{
    let mut order = Vec::new(alloc);
    for at in 0..count {
        push(&mut order, at)?;
    }
    Ok(order)
}

/// The place of the first part that is the declared one of this number.
fn place_of(numbers: &[Option<usize>], number: usize) -> Option<usize>
    ensures { result ≡ place_of numbers.now number }
{
    for (place, found) in numbers.iter().enumerate() {
        if *found == Some(number) {
            return Some(place);
        }
    }
    None
}

/// Puts the places of the declared parts behind those of the parts before them, where each stands in the text.
fn orders(
    numbers: &[Option<usize>],
    mut order: Vec<u32>,
    left: usize,
) -> Result<Option<Vec<u32>>, AllocError>
    ensures { IfOk result (λ found. option_map (λ list. list.items) found ≡ orders numbers.now order.items left) }
{
    if left == 0 {
        return Ok(Some(order));
    }
    match place_of(numbers, order.len()) {
        None => Ok(None),
        Some(place) => {
            push(&mut order, place)?;
            let found = orders(numbers, order, left - 1)?;
            Ok(found)
        }
    }
}

/// For each of so many declared parts its place in the text, where each stands there once.
pub fn order_of(
    alloc: Global,
    numbers: &[Option<usize>],
    count: usize,
) -> Result<Option<Vec<u32>>, AllocError>
    ensures order { IfOk result (λ found. option_map (λ list. list.items) found ≡ order_of numbers.now count) }
{
    if numbers.len() == count {
        orders(numbers, Vec::new(alloc), count)
    } else {
        Ok(None)
    }
}
