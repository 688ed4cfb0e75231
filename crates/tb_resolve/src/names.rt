use sqlite_items::Items;
use tb_mentions::Meaning;
use tb_signatures::Signature;
use tb_types::Types;

/// What the names of a file mean.
#[derive(Drop)]
pub struct Names {
    /// The types that are written, and the structs: `Layout` is 0, and those of the file are counted from 1 in the order of the text.
    /// All have their fields.
    pub types: Types,
    /// The heads of the functions, each at the number of its function: in the order of the text, from 0.
    pub functions: Vec<Signature>,
    /// For each item what its mentions mean, both in the order of the text.
    pub meanings: Vec<Items<Meaning>>,
}
