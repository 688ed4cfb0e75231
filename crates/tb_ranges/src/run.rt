/// A value at each place from `lo` to before `hi`.
#[derive(Clone, Copy, Debug, PartialEq, Eq)]
pub struct Run<V> {
    pub lo: u32,
    pub hi: u32,
    pub value: V,
}
