//! Short lists.
use base_types::{Items, NoMemory};
use std::alloc::Global;

/// A list of one item.
pub fn one<T: Drop>(alloc: Global, item: T) -> Result<Items<T>, NoMemory> {
    let mut list = Items::new(alloc);
    list.push(item)?;
    Ok(list)
}

/// A list of these items.
pub fn listed<T: Copy + Drop>(alloc: Global, items: &[T]) -> Result<Items<T>, NoMemory> {
    let mut list = Items::new(alloc);
    for item in items {
        list.push(*item)?;
    }
    Ok(list)
}

/// The place of the first answer that is not right, counted from 0. A test that asks for it once, and not for each answer by
/// itself, has one exit, and is soon proved.
pub fn first_wrong(right: &[bool]) -> Option<usize> {
    right.iter().position(|right| !*right)
}
