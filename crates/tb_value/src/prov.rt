//! The provenance that bytes have in common.
ghost use Rattle.std.specs.Prelude.{◌≡◌, map};
ghost use Rattle.tb_value.specs.Scalars.{same_prov, all_from, common_prov, with_prov};

use tb_bytes::ByteVal;
use tb_perm::Prov;

/// Whether two provenances are the same, or both are none.
fn same_prov(a: Option<Prov>, b: Option<Prov>) -> bool
    ensures { result ≡ same_prov a b }
{
    match (a, b) {
        (None, None) => true,
        (Some(p), Some(q)) => p.alloc.0 == q.alloc.0 && p.tag.0 == q.tag.0,
        _ => false,
    }
}

/// Whether all bytes carry a provenance, or all carry none.
fn all_from(prov: Option<Prov>, bytes: &[ByteVal]) -> bool
    ensures { result ≡ all_from prov bytes.now }
{
    bytes.iter().all(|byte| same_prov(byte.prov(), prov))
}

/// The provenance that all of the bytes carry; none where one carries another.
pub fn common_prov(bytes: &[ByteVal]) -> Option<Prov>
    ensures { result ≡ common_prov bytes.now }
{
    match bytes {
        [] => None,
        [first, rest @ ..] => {
            if all_from(first.prov(), rest) {
                first.prov()
            } else {
                None
            }
        }
    }
}

/// The byte with another provenance, if it has a value.
pub fn with_prov(prov: Option<Prov>, byte: ByteVal) -> ByteVal
    ensures { result ≡ with_prov prov byte }
{
    match byte {
        ByteVal::Init(value, _) => ByteVal::Init(value, prov),
        ByteVal::Uninit => ByteVal::Uninit,
    }
}
