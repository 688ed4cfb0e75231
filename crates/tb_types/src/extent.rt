ghost use Rattle.std.specs.Prelude.{◌≡◌, ◌+◌, ◌^◌, ◌≤◌, ◌*◌, min};
ghost use Rattle.tb_types.specs.Extent.{rounded, nothing, with_part, closed, scalar, empty, pointer, repeated, wrapped, is_within};
ghost use Rattle.tb_types.specs.Capped.{top, capped, capped_row, IsAlign, IsSmall, IsSmallRow};

/// How much a type takes: bytes, alignment in bytes, parts and levels.
#[derive(Clone, Copy, Debug, PartialEq, Eq)]
pub struct Extent {
    pub size: u64,
    pub align: u64,
    pub parts: u64,
    pub levels: u64,
}

/// Parts laid one behind another: where they end, and what they need together.
#[derive(Clone, Copy, Debug, PartialEq, Eq)]
pub struct Row {
    pub end: u64,
    pub align: u64,
    pub parts: u64,
    pub levels: u64,
}

const MOST_BYTES: u64 = 1_048_576;

const MOST_PARTS: u64 = 4_194_304;

const MOST_LEVELS: u64 = 1_024;

/// Where counts stand still, above all limits.
const TOP: u64 = 4_294_967_296;

/// No part yet.
pub const NOTHING: Row = Row {
    end: 0,
    align: 1,
    parts: 0,
    levels: 0,
};

/// The extent of `()`.
pub const EMPTY: Extent = Extent {
    size: 0,
    align: 1,
    parts: 1,
    levels: 1,
};

/// What has as many bytes as its alignment says.
pub fn scalar(bytes: u64) -> Extent
    requires { IsAlign bytes }
    ensures extent { result ≡ capped (scalar bytes) }
    ensures small { IsSmall result }
{
    Extent {
        size: bytes,
        align: bytes,
        parts: 1,
        levels: 1,
    }
}

/// A pointer of so many bytes.
pub fn pointer(bytes: u64) -> Extent
    requires { bytes ≤ 16 }
    ensures extent { result ≡ capped (pointer bytes) }
    ensures small { IsSmall result }
{
    Extent {
        size: bytes,
        align: 8,
        parts: 1,
        levels: 1,
    }
}

/// The least multiple of an alignment that is not below a number.
pub fn round_up(n: u64, align: u64) -> u64
    requires n { n ≤ top }
    requires align { IsAlign align }
    ensures { result ≡ rounded n align }
{
    (n + (align - 1)) / align * align
}

fn capped(n: u64) -> u64
    ensures { result ≡ min n top }
{
    n.min(TOP)
}

/// One more part.
pub fn with_part(row: Row, part: Extent) -> Row
    requires row { IsSmallRow row }
    requires part { IsSmall part }
    ensures row { result ≡ capped_row (with_part row part) }
    ensures small { IsSmallRow result }
{
    Row {
        end: capped(round_up(row.end, part.align) + part.size),
        align: row.align.max(part.align),
        parts: capped(row.parts + part.parts),
        levels: row.levels.max(part.levels),
    }
}

/// A type of these parts.
pub fn closed(row: Row) -> Extent
    requires { IsSmallRow row }
    ensures extent { result ≡ capped (closed row) }
    ensures small { IsSmall result }
{
    Extent {
        size: capped(round_up(row.end, row.align)),
        align: row.align,
        parts: capped(row.parts + 1),
        levels: capped(row.levels + 1),
    }
}

/// An array.
pub fn repeated(n: u64, part: Extent) -> Extent
    requires { IsSmall part }
    ensures extent { result ≡ capped (repeated n part) }
    ensures small { IsSmall result }
{
    Extent {
        size: times(n, part.size),
        align: part.align,
        parts: capped(times(n, part.parts) + 1),
        levels: capped(part.levels + 1),
    }
}

fn times(n: u64, m: u64) -> u64
    requires { m ≤ top }
    ensures { result ≡ min (n * m) top }
{
    let product = n as u128 * m as u128;
    if product < TOP as u128 {
        product as u64
    } else {
        TOP
    }
}

/// A cell around its content.
pub fn wrapped(part: Extent) -> Extent
    requires { IsSmall part }
    ensures extent { result ≡ capped (wrapped part) }
    ensures small { IsSmall result }
{
    Extent {
        size: part.size,
        align: part.align,
        parts: capped(part.parts + 1),
        levels: capped(part.levels + 1),
    }
}

/// Whether a type that takes so much is not too large.
pub fn is_within(extent: Extent) -> bool
    ensures { result ≡ is_within extent }
{
    extent.size <= MOST_BYTES && (extent.parts <= MOST_PARTS && extent.levels <= MOST_LEVELS)
}
