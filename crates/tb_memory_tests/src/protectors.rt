ghost use Rattle.std.specs.Prelude.{◌≡◌};
ghost use Rattle.tb_protect.specs.Kept.{key_of};

use std::test::Fail;
use tb_perm::{AllocId, Guard, Prov, Tag};
use tb_protect::Protectors;

fn prov(alloc: u64, tag: u64) -> Prov
    ensures { key_of result ≡ (alloc, tag) }
{
    Prov {
        alloc: AllocId(alloc),
        tag: Tag(tag),
    }
}

#[test]
fn guards_end_with_their_frame(rt: HostRuntime) -> Result<(), Fail> {
    let mut protectors = Protectors::new(rt.alloc())?;
    protectors.push_frame()?;
    protectors.protect(prov(1, 2), Guard::Strong)?;
    protectors.protect(prov(2, 1), Guard::Weak)?;
    protectors.push_frame()?;
    protectors.push_frame()?;
    protectors.protect(prov(1, 1), Guard::Strong)?;
    // Tags alone, or allocations alone, do not make a provenance.
    let nested = [
        (prov(1, 2), Guard::Strong),
        (prov(2, 1), Guard::Weak),
        (prov(1, 1), Guard::Strong),
        (prov(2, 2), Guard::Free),
        (prov(3, 1), Guard::Free),
    ];
    for (asked, wanted) in nested {
        assert_eq!(rt; protectors.kind_of(asked), wanted);
    }
    assert_eq!(rt; protectors.frame_list(), [prov(1, 1)].as_slice());
    protectors.pop_frame();
    assert_eq!(rt; protectors.kind_of(prov(1, 1)), Guard::Free);
    assert_eq!(rt; protectors.kind_of(prov(2, 1)), Guard::Weak);
    assert_eq!(rt; protectors.frame_list().len(), 0);
    // A provenance may come back once it is free, below or above.
    protectors.protect(prov(1, 1), Guard::Weak)?;
    assert_eq!(rt; protectors.kind_of(prov(1, 1)), Guard::Weak);
    protectors.pop_frame();
    assert_eq!(rt; protectors.kind_of(prov(1, 1)), Guard::Free);
    assert_eq!(rt;
        protectors.frame_list(),
        [prov(1, 2), prov(2, 1)].as_slice()
    );
    protectors.pop_frame();
    assert_eq!(rt; protectors.kind_of(prov(1, 2)), Guard::Free);
    Ok(())
}
