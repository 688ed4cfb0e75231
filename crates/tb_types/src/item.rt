use crate::name::Name;
use crate::shape::Ty;
use sqlite_items::Items;

/// A field of a struct.
#[derive(Debug, Drop)]
pub struct Field {
    pub name: Name,
    pub ty: Ty,
}

/// A declared struct: its name, whether it derives `Copy`, and its fields once it is defined.
#[derive(Debug, Drop)]
pub struct Item {
    pub name: Name,
    pub copy: bool,
    pub fields: Option<Items<Field>>,
}
