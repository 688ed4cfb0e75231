ghost use Rattle.std.specs.Prelude.{◌≡◌, ◌≤◌, ◌+◌, length, IfOk, OnOk};

use std::alloc::{AllocError, Global};
use tb_bytes::{ByteVal, Bytes};
use tb_perm::{AllocId, Prov, Tag};

const NONE: ByteVal = ByteVal::Uninit;

fn prov(alloc: u64, tag: u64) -> Prov {
    Prov {
        alloc: AllocId(alloc),
        tag: Tag(tag),
    }
}

/// A byte of a pointer.
fn of(value: u8, origin: Prov) -> ByteVal {
    ByteVal::Init(value, Some(origin))
}

/// A byte without a provenance.
fn plain(value: u8) -> ByteVal {
    ByteVal::Init(value, None)
}

/// Eight bytes: one that is not initialised, a pointer's four, two plain ones, and again one that is not.
fn sample(alloc: Global) -> Result<Bytes, AllocError>
    ensures { IfOk result (λ bytes. length bytes ≡ 8) }
{
    let p = prov(2, 7);
    let mut bytes = Bytes::new(alloc, 8)?;
    bytes.write(
        1,
        &[
            of(10, p),
            of(11, p),
            of(12, p),
            of(13, p),
            plain(20),
            plain(21),
        ],
    )?;
    Ok(bytes)
}

/// Whether the sample has these bytes after a write from `lo` on.
fn writes(alloc: Global, lo: u32, bytes: &[ByteVal], want: &[ByteVal]) -> bool
    requires { lo + length bytes.now ≤ 8 }
{
    let Ok(mut sample) = sample(alloc) else {
        return false;
    };
    match sample.write(lo, bytes) {
        Ok(()) => has(&sample, want),
        Err(_) => false,
    }
}

/// Whether these are all the bytes.
fn has(bytes: &Bytes, want: &[ByteVal]) -> bool
    requires { length bytes.now ≡ 8 }
{
    match bytes.read(0, 8) {
        Ok(all) => all.as_slice() == want,
        Err(_) => false,
    }
}

/// Whether the sample reads so from `lo` to before `hi`.
fn reads(alloc: Global, lo: u32, hi: u32, want: &[ByteVal]) -> bool
    requires order { lo ≤ hi }
    requires within { hi ≤ 8 }
{
    let Ok(sample) = sample(alloc) else {
        return false;
    };
    match sample.read(lo, hi) {
        Ok(bytes) => bytes.as_slice() == want,
        Err(_) => false,
    }
}

#[test]
fn reads_what_was_written(rt: HostRuntime) {
    let alloc = rt.alloc();
    let p = prov(2, 7);
    // Over three kinds of bytes, over one kind, and over none.
    let all = [
        NONE,
        of(10, p),
        of(11, p),
        of(12, p),
        of(13, p),
        plain(20),
        plain(21),
        NONE,
    ];
    assert!(rt; reads(alloc, 0, 8, &all));
    assert!(rt; reads(alloc, 4, 8, &[of(13, p), plain(20), plain(21), NONE]));
    assert!(rt; reads(alloc, 2, 3, &[of(11, p)]));
    assert!(rt; reads(alloc, 3, 3, &[]));
    assert!(rt; reads(alloc, 8, 8, &[]));
    assert!(rt; writes(alloc, 0, &all, &all));
    assert!(rt; writes(alloc, 8, &[], &all));
}

#[test]
fn writes_over_pointers(rt: HostRuntime) {
    let alloc = rt.alloc();
    let p = prov(2, 7);
    let q = prov(1, 9);
    // Plain bytes, none and another pointer's in the middle of a pointer; the ends keep theirs.
    assert!(rt;
        writes(
            alloc,
            2,
            &[plain(0), plain(1)],
            &[
                NONE,
                of(10, p),
                plain(0),
                plain(1),
                of(13, p),
                plain(20),
                plain(21),
                NONE
            ]
        )
    );
    assert!(rt;
        writes(
            alloc,
            3,
            &[NONE],
            &[
                NONE,
                of(10, p),
                of(11, p),
                NONE,
                of(13, p),
                plain(20),
                plain(21),
                NONE
            ]
        )
    );
    assert!(rt;
        writes(
            alloc,
            4,
            &[of(1, q), of(2, q), NONE, of(3, p)],
            &[
                NONE,
                of(10, p),
                of(11, p),
                of(12, p),
                of(1, q),
                of(2, q),
                NONE,
                of(3, p)
            ]
        )
    );
}

/// The sample with a torn pointer and two more: p once, q twice with a gap, and r behind it at once.
fn torn(alloc: Global) -> Result<Bytes, AllocError> {
    let q = prov(1, 9);
    let r = prov(2, 3);
    let mut bytes = sample(alloc)?;
    bytes.write(2, &[plain(0), of(1, q), NONE, of(2, q), of(3, r), of(4, r)])?;
    Ok(bytes)
}

/// The sample after its pointer was written over.
fn cleared(alloc: Global) -> Result<Bytes, AllocError> {
    let mut bytes = sample(alloc)?;
    bytes.write(0, &[plain(0), NONE, plain(1), NONE, NONE])?;
    Ok(bytes)
}

/// Whether the next run of a provenance is this one.
fn finds(bytes: &Bytes, at: u32, end: u32, origin: Prov) -> bool {
    bytes.next_prov(at) == Some((end, origin))
}

/// Whether these are the provenances.
fn lists(bytes: &Bytes, want: &[Prov]) -> bool {
    match bytes.provenances() {
        Ok(provs) => provs.as_slice() == want,
        Err(_) => false,
    }
}

#[test]
fn finds_the_next_provenance(rt: HostRuntime) -> Result<(), AllocError> {
    let (p, q, r) = (prov(2, 7), prov(1, 9), prov(2, 3));
    let whole = sample(rt.alloc())?;
    assert!(rt; finds(&whole, 0, 5, p));
    assert!(rt; finds(&whole, 3, 5, p));
    assert!(rt; whole.next_prov(5).is_none());
    assert!(rt; whole.next_prov(9).is_none());
    let torn = torn(rt.alloc())?;
    assert!(rt; finds(&torn, 0, 2, p));
    assert!(rt; finds(&torn, 2, 4, q));
    assert!(rt; finds(&torn, 4, 6, q));
    assert!(rt; finds(&torn, 7, 8, r));
    assert!(rt; torn.next_prov(8).is_none());
    Ok(())
}

#[test]
fn lists_provenances(rt: HostRuntime) -> Result<(), AllocError> {
    let (p, q, r) = (prov(2, 7), prov(1, 9), prov(2, 3));
    assert!(rt; lists(&torn(rt.alloc())?, &[q, r, p]));
    assert!(rt; lists(&sample(rt.alloc())?, &[p]));
    assert!(rt; lists(&cleared(rt.alloc())?, &[]));
    let empty = Bytes::new(rt.alloc(), 0)?;
    assert!(rt; lists(&empty, &[]));
    assert!(rt; empty.next_prov(0).is_none());
    Ok(())
}
