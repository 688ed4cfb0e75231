use tb_perm::Prov;

/// A pointer: an address, and where it comes from. One without a provenance may be compared and
/// printed, but accesses nothing.
#[derive(Clone, Copy, Debug, PartialEq, Eq)]
pub struct Ptr {
    pub addr: u64,
    pub prov: Option<Prov>,
}
