ghost use Rattle.std.specs.Prelude.{◌≡◌, IsTrue};
ghost use Rattle.tb_bytes.specs.Bytes.{is_init, prov_of, value_of};

use tb_perm::Prov;

/// A byte of memory: uninitialised, or a value that may carry the provenance of a pointer. The abstract
/// bytes of the Rust Reference are such.
#[derive(Clone, Copy, Debug, PartialEq, Eq)]
pub enum ByteVal {
    Uninit,
    Init(u8, Option<Prov>),
}

impl ByteVal {
    /// Whether the byte has a value.
    pub fn is_init(self) -> bool
        ensures { result ≡ is_init self }
    {
        matches!(self, ByteVal::Init(_, _))
    }

    /// The value; 0 for an uninitialised byte.
    pub fn value(self) -> u8
        ensures { result ≡ value_of self }
    {
        match self {
            ByteVal::Init(value, _) => value,
            ByteVal::Uninit => 0,
        }
    }

    /// The provenance, if there is one.
    pub fn prov(self) -> Option<Prov>
        ensures { result ≡ prov_of self }
    {
        match self {
            ByteVal::Init(_, prov) => prov,
            ByteVal::Uninit => None,
        }
    }
}
