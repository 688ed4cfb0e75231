/// A piece of the source text, in bytes from its beginning: from `lo` on, and up to before `hi`.
///
/// A source has at most 1,048,576 bytes, so both ends fit. A span with equal ends is empty, and
/// names the place before its byte.
#[derive(Clone, Copy, Debug, PartialEq, Eq)]
pub struct Span {
    pub lo: u32,
    pub hi: u32,
}
