//! Nodes of a balanced tree.

ghost use Rattle.std.specs.Prelude.{◌≡◌, ◌≤◌, ◌+◌, ◌++◌, ◌∷◌, [], IfOk};
ghost use Rattle.std.specs.Fn.{FnReturnsAt, FnReturnsAtPair};
ghost use Rattle.std.specs.List.{last_or};
ghost use Rattle.std.specs.Option.{option_copied};
ghost use Rattle.std.specs.declared.cmp.Ordering.{Ordering as Order};
ghost use Rattle.sorted_map.specs.Indexed.{Tells, IsParted, first_not_less, with_slot, without_tied, first_tied};
ghost use Rattle.sorted_map.specs.Sides.{items_of};
ghost use Rattle.sorted_map.specs.Parts.{items_within};

use std::alloc::{AllocError, Global};
use std::cmp::Ordering;
use std::marker::Model;
use std::mem;

/// A part of a tree: a node with all below it, or nothing.
pub(crate) type Side<T> = Option<Box<Node<T>>>;

/// An item that fills a node outside of a tree.
pub(crate) trait Blank: Drop {
    /// Returns such an item. Takes no memory.
    fn blank() -> Self;
}

/// An item with those before it and those behind it. Contracts see the list of them in order. The
/// heights of the two sides differ by at most one, of which contracts say nothing.
#[derive(Drop)]
pub(crate) struct Node<T> {
    pub(crate) item: T,
    height: u8,
    pub(crate) left: Side<T>,
    pub(crate) right: Side<T>,
}

impl<T> Model for Node<T> {
    ghost use Rattle.std.specs.Prelude.{◌++◌, ◌∷◌, List, length};
    ghost use Rattle.std.specs.Coded.{coded_list};

    ghost Value = { List T };

    ghost coded = { coded_list T.code };

    ghost use Rattle.sorted_map.specs.Sides.{items_of};

    ghost view = { λ a. items_of a.left ++ a.item ∷ items_of a.right };

    ghost size = { length };

    ghost use Rattle.std.proofs.Common.{arith, length-append};

    ghost size_decreases = { λ a h. Prim.grind (arith, length-append) };
}

// The parts of a node: the two sides, the item between them, and the memory.
#[derive(Drop)]
struct Parts<T> {
    left: Side<T>,
    item: T,
    right: Side<T>,
    memory: Box<Node<T>>,
}

/// Returns a node with nothing below it.
pub(crate) fn leaf<T>(item: T) -> Node<T>
    ensures { result ≡ item ∷ [] }
{
    Node {
        item,
        height: 1,
        left: None,
        right: None,
    }
}

/// Returns the first item that isn't less than the point that is sought.
pub(crate) fn first_from<'a, T, F: Fn(&T) -> Ordering>(
    side: &'a Side<T>,
    order_of: &F,
) -> Option<&'a T>
    requires { F.IsAlwaysCallable order_of.now }
    ensures { (order : T → Order) → Tells (FnReturnsAt F.Fn order_of.now) order → IsParted order (items_of side.now) → option_copied result ≡ first_not_less order (items_of side.now) }
{
    let mut below = side;
    let mut found = None;
    while let Some(node) = below {
        let Node {
            item,
            height: _,
            left,
            right,
        } = &**node;
        if compared(item, order_of).is_lt() {
            below = right;
        } else {
            found = Some(item);
            below = left;
        }
    }
    found
}

/// Returns the last item.
pub(crate) fn last_within<T>(side: &Side<T>) -> Option<&T>
    ensures { option_copied result ≡ last_or None (items_of side.now) }
{
    let mut below = side;
    let mut found = None;
    while let Some(node) = below {
        let Node {
            item,
            height: _,
            left: _,
            right,
        } = &**node;
        found = Some(item);
        below = right;
    }
    found
}

/// Returns a copy of a side, of the same shape. A clone of an item is the item again.
///
/// # Errors
/// If memory runs out.
pub(crate) fn copied<T: Clone>(alloc: Global, side: &Side<T>) -> Result<Side<T>, AllocError>
    requires { (item clone : T) → T.is_clone item clone → clone ≡ item }
    ensures { IfOk result (λ copy. items_of copy ≡ items_of side.now) }
{
    let Some(node) = side else {
        return Ok(None);
    };
    let Node {
        item,
        height,
        left,
        right,
    } = &**node;
    let copy = Node {
        item: item.clone()?,
        height: *height,
        left: copied(alloc, left)?,
        right: copied(alloc, right)?,
    };
    Ok(Some(Box::new(alloc, copy)?))
}

/// Inserts an item before the first one that isn't less than it, in the memory that is given. The
/// closure tells how an item of the tree stands to the new one.
pub(crate) fn inserted<T: Blank, F: Fn(&T, &T) -> Ordering>(
    side: Side<T>,
    item: T,
    mut memory: Box<Node<T>>,
    order_of: &F,
) -> Box<Node<T>>
    requires { F.IsAlwaysCallable order_of.now }
    ensures { (order : T → Order) → Tells (λ held. FnReturnsAtPair F.Fn order_of.now held item) order → IsParted order (items_of side) → result.value ≡ with_slot order item (items_of side) }
{
    let Some(node) = side else {
        *memory = leaf(item);
        return memory;
    };
    let mut parts = opened(node);
    if compared_to(&parts.item, &item, order_of).is_lt() {
        parts.right = Some(inserted(parts.right, item, memory, order_of));
        return balanced(parts);
    }
    parts.left = Some(inserted(parts.left, item, memory, order_of));
    balanced(parts)
}

/// Removes the first item that ties with the point that is sought. Returns the rest, and the item.
pub(crate) fn removed<T: Blank, F: Fn(&T) -> Ordering>(
    side: Side<T>,
    order_of: &F,
) -> (Side<T>, Option<T>)
    requires { F.IsAlwaysCallable order_of.now }
    ensures { (order : T → Order) → Tells (FnReturnsAt F.Fn order_of.now) order → IsParted order (items_of side) → (items_of result.0 ≡ without_tied order (items_of side)) × (result.1 ≡ first_tied order (items_of side)) }
{
    let Some(node) = side else {
        return (None, None);
    };
    let mut parts = opened(node);
    let order = compared(&parts.item, order_of);
    if order.is_lt() {
        let (right, found) = removed(parts.right, order_of);
        parts.right = right;
        return (Some(balanced(parts)), found);
    }
    let (left, found) = removed(parts.left, order_of);
    parts.left = left;
    if let Some(item) = found {
        return (Some(balanced(parts)), Some(item));
    }
    if order.is_eq() {
        let (rest, item) = joined(parts);
        return (rest, Some(item));
    }
    (Some(balanced(parts)), None)
}

// Returns how an item stands to the point that is sought.
fn compared<T, F: Fn(&T) -> Ordering>(item: &T, order_of: &F) -> Ordering
    requires { F.IsAlwaysCallable order_of.now }
    ensures { (order : T → Order) → Tells (FnReturnsAt F.Fn order_of.now) order → result ≡ order item.now }
{
    order_of(item)
}

// Returns how an item of the tree stands to a new one.
fn compared_to<T, F: Fn(&T, &T) -> Ordering>(held: &T, item: &T, order_of: &F) -> Ordering
    requires { F.IsAlwaysCallable order_of.now }
    ensures { (order : T → Order) → Tells (λ other. FnReturnsAtPair F.Fn order_of.now other item.now) order → result ≡ order held.now }
{
    order_of(held, item)
}

// Joins the two sides, and returns the item between them beside.
fn joined<T: Blank>(parts: Parts<T>) -> (Side<T>, T)
    ensures sides { items_of result.0 ≡ items_of parts.left ++ items_of parts.right }
    ensures item { result.1 ≡ parts.item }
{
    let Parts {
        left,
        item,
        right,
        memory,
    } = parts;
    match right {
        None => (left, item),
        Some(right) => {
            let (first, right) = split_first(right);
            let rest = balanced(Parts {
                left,
                item: first,
                right,
                memory,
            });
            (Some(rest), item)
        }
    }
}

// Returns the first item, and the rest.
fn split_first<T: Blank>(node: Box<Node<T>>) -> (T, Side<T>)
    ensures { node.value ≡ result.0 ∷ items_of result.1 }
{
    let Parts {
        left,
        item,
        right,
        memory,
    } = opened(node);
    match left {
        None => (item, right),
        Some(left) => {
            let (first, left) = split_first(left);
            (
                first,
                Some(balanced(Parts {
                    left,
                    item,
                    right,
                    memory,
                })),
            )
        }
    }
}

// Returns how high a side is.
fn height<T>(side: &Side<T>) -> u8 {
    match side {
        None => 0,
        Some(node) => node.height,
    }
}

// Takes a node apart.
fn opened<T: Blank>(mut node: Box<Node<T>>) -> Parts<T>
    ensures { items_within result ≡ node.value }
{
    let Node {
        item,
        height: _,
        left,
        right,
    } = mem::replace(&mut *node, leaf(T::blank()));
    Parts {
        left,
        item,
        right,
        memory: node,
    }
}

// Makes a node of its parts, as they are.
fn closed<T: Blank>(parts: Parts<T>) -> Box<Node<T>>
    ensures { result.value ≡ items_within parts }
{
    let height = height(&parts.left)
        .max(height(&parts.right))
        .saturating_add(1);
    let mut node = parts.memory;
    *node = Node {
        item: parts.item,
        height,
        left: parts.left,
        right: parts.right,
    };
    node
}

// Makes a node of parts whose heights differ by at most two, so that those of its sides differ by
// at most one.
fn balanced<T: Blank>(mut parts: Parts<T>) -> Box<Node<T>>
    ensures { result.value ≡ items_within parts }
{
    let left = height(&parts.left);
    let right = height(&parts.right);
    if left > right.saturating_add(1) {
        parts.left = leaned_left(parts.left);
        closed(left_up(parts))
    } else if right > left.saturating_add(1) {
        parts.right = leaned_right(parts.right);
        closed(right_up(parts))
    } else {
        closed(parts)
    }
}

// Rotates a side whose right part is the higher one.
fn leaned_left<T: Blank>(side: Side<T>) -> Side<T>
    ensures { items_of result ≡ items_of side }
{
    match side {
        None => None,
        Some(node) => {
            let parts = opened(node);
            if height(&parts.right) > height(&parts.left) {
                Some(closed(right_up(parts)))
            } else {
                Some(closed(parts))
            }
        }
    }
}

// Rotates a side whose left part is the higher one.
fn leaned_right<T: Blank>(side: Side<T>) -> Side<T>
    ensures { items_of result ≡ items_of side }
{
    match side {
        None => None,
        Some(node) => {
            let parts = opened(node);
            if height(&parts.left) > height(&parts.right) {
                Some(closed(left_up(parts)))
            } else {
                Some(closed(parts))
            }
        }
    }
}

// Rotates: the item of the left side comes up, and this one goes to the right.
fn left_up<T: Blank>(parts: Parts<T>) -> Parts<T>
    ensures { items_within result ≡ items_within parts }
{
    let Parts {
        left,
        item,
        right,
        memory,
    } = parts;
    match left {
        None => Parts {
            left: None,
            item,
            right,
            memory,
        },
        Some(child) => {
            let child = opened(child);
            let lower = closed(Parts {
                left: child.right,
                item,
                right,
                memory,
            });
            Parts {
                left: child.left,
                item: child.item,
                right: Some(lower),
                memory: child.memory,
            }
        }
    }
}

// Rotates: the item of the right side comes up, and this one goes to the left.
fn right_up<T: Blank>(parts: Parts<T>) -> Parts<T>
    ensures { items_within result ≡ items_within parts }
{
    let Parts {
        left,
        item,
        right,
        memory,
    } = parts;
    match right {
        None => Parts {
            left,
            item,
            right: None,
            memory,
        },
        Some(child) => {
            let child = opened(child);
            let lower = closed(Parts {
                left,
                item,
                right: child.left,
                memory,
            });
            Parts {
                left: Some(lower),
                item: child.item,
                right: child.right,
                memory: child.memory,
            }
        }
    }
}
