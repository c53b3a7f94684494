//! The types of other crates that modules import.

use crate::exports::Export;
use crate::naming::UsedNames;
use crate::terms::{TypeName, own_tag};
use asn1_types::model::KnownType;
use std::alloc::{AllocError, Global};

/// The types of other crates, as a resolver takes them.
pub fn known_types<'a>(
    alloc: Global,
    exports: &'a [Export<'a>],
) -> Result<Vec<KnownType<'a>>, AllocError> {
    let mut types = Vec::new(alloc);
    for export in exports {
        let known = KnownType {
            module: export.module,
            name: export.name,
            tags: export.tags.as_slice(),
            is_untagged: export.is_untagged,
        };
        if types.push(known).is_err() {
            return Err(AllocError);
        }
    }
    Ok(types)
}

// The name of a type in its crate, if sources call it by another one.
fn original_of(
    alloc: Global,
    export: &Export<'_>,
    name: &[u8],
) -> Result<Option<Vec<u8>>, AllocError> {
    if name == export.rust {
        return Ok(None);
    }
    let original = Vec::from_slice(alloc, export.rust)?;
    Ok(Some(original))
}

// The names of a type in sources, which differ from those before it.
fn name_of(
    alloc: Global,
    export: &Export<'_>,
    used: &mut UsedNames,
) -> Result<TypeName, AllocError> {
    let name = used.take_imported(export.rust)?;
    let law = used.take_law(export.origin, export.file)?;
    let file = Vec::from_slice(alloc, export.file)?;
    let origin = Vec::from_slice(alloc, export.origin.as_bytes())?;
    let original = original_of(alloc, export, name.as_slice())?;
    Ok(TypeName {
        name,
        file,
        origin: Some(origin),
        original,
        law,
        is_enumeration: export.is_enumeration,
        tags: Vec::new(alloc),
        is_canonical: export.is_canonical,
        is_open: export.is_open,
        own_tag: own_tag(export.tags.as_slice(), export.is_untagged),
        choice_tags: Vec::new(alloc),
        is_set_part: false,
        unread: None,
    })
}

/// The names of the types of other crates, in the same order.
pub fn known_names(alloc: Global, exports: &[Export<'_>]) -> Result<Vec<TypeName>, AllocError> {
    let mut used = UsedNames::new(alloc);
    let mut names = Vec::new(alloc);
    for export in exports {
        let name = name_of(alloc, export, &mut used)?;
        if names.push(name).is_err() {
            return Err(AllocError);
        }
    }
    Ok(names)
}
