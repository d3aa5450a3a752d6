//! How something is printed.

use std::alloc::Global;
use std::fmt::Display;

/// Whether something is printed as this text, if memory is there.
pub(crate) fn is_printed<T: Display>(alloc: Global, it: &T, text: &str) -> Option<bool> {
    let printed = it.to_string(alloc).ok()?;
    Some(printed.as_str() == text)
}
