use std::alloc::{AllocError, Global};

/// A text with the first of each pair replaced by the second, pair by pair.
pub fn replaced(alloc: Global, text: &str, pairs: &[(&str, &str)]) -> Result<String, AllocError> {
    let mut made = String::from_str(alloc, text)?;
    for (old, new) in pairs {
        made = made.as_str().replace(alloc, old, new)?;
    }
    Ok(made)
}
