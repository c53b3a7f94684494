//! Values by their names.

/// The value of this name in a table, if it has one.
pub fn named<T: Copy>(table: &[(&str, T)], name: &str) -> Option<T> {
    for (word, value) in table {
        if *word == name {
            return Some(*value);
        }
    }
    None
}

/// One value of a table or two, as `INNER` or `OUTER.INNER` names them: how many, the inner one and the outer one.
pub fn named_within<T: Copy>(table: &[(&str, T)], names: &str) -> Option<(u8, T, T)> {
    let (depth, outer, inner) = match names.split_once('.') {
        Some((outer, inner)) => (2, outer, inner),
        None => (1, names, names),
    };
    match (named(table, inner), named(table, outer)) {
        (Some(inner), Some(outer)) => Some((depth, inner, outer)),
        _ => None,
    }
}
