ghost use Rattle.std.specs.Prelude.{◌≡◌, ◌<◌};

use crate::marked::Marked;
use std::alloc::{AllocError, Global};
use std::marker::Brand;
use std::sync::ledger::{Blank, Ledger};
use std::test::Fail;
use tb_perm::Steps;
use tb_shape::Shape;
use tb_walk::{Blame, Walked, blame_on_way, walk};

/// What a walk over a small tree gives, and the blame on its way. The root 1 has the children 2 and 3, under 2 is 4,
/// under 3 is 5, and under 5 is 6. The way goes from 2 to the root.
fn walk_on<L: Ledger>(
    blank: Blank,
    alloc: Global,
    from: usize,
    tags: &Marked,
) -> Result<(Walked, Option<Blame>), AllocError>
    requires name { blank.name ≡ L.name }
    requires parts { blank.parts ≡ L.parts }
    requires some { 0 < L.parts }
{
    let mut steps: Steps<L> = Steps::new(blank);
    let mut shape = Shape::new(alloc, 1)?;
    shape.add_child(1, 2)?;
    shape.add_child(1, 3)?;
    shape.add_child(2, 4)?;
    shape.add_child(3, 5)?;
    shape.add_child(5, 6)?;
    let path = shape.path(2)?;
    let _root = shape.root();
    let walked = walk(alloc, &shape, &path, from, tags, &mut steps)?;
    let on_way = blame_on_way(&path, tags, &mut steps);
    Ok((walked, on_way))
}

fn walked(
    alloc: Global,
    from: usize,
    tags: &Marked,
) -> Result<(Walked, Option<Blame>), AllocError> {
    walk_on::<Brand>(Blank::new(1), alloc, from, tags)
}

#[test]
fn shut_tags_hide_what_is_below(rt: HostRuntime) -> Result<(), Fail> {
    // Nothing is shut: all tags off the way are visited.
    let open = Marked {
        shut: 0,
        refuses: 6,
        byte: 3,
    };
    let (whole, way) = walked(rt.alloc(), 0, &open)?;
    assert_eq!(rt; whole.keys.len(), 4);
    assert_eq!(rt; whole.blame, Some(Blame { byte: 3, key: 6 }));
    assert_eq!(rt; way, None);

    // Tag 3 is shut: it is visited, and the tags below it are not.
    let shut = Marked {
        shut: 3,
        refuses: 6,
        byte: 3,
    };
    let (part, _way) = walked(rt.alloc(), 0, &shut)?;
    assert_eq!(rt; part.keys.len(), 2);
    assert_eq!(rt; part.blame, None);

    // From the second tag of the way on, tag 4 is passed by.
    let (above, _way) = walked(rt.alloc(), 1, &shut)?;
    assert_eq!(rt; above.keys.as_slice(), [3].as_slice());

    // A tag of the way is blamed there.
    let local = Marked {
        shut: 3,
        refuses: 1,
        byte: 0,
    };
    let (quiet, way) = walked(rt.alloc(), 0, &local)?;
    assert_eq!(rt; quiet.blame, None);
    assert_eq!(rt; way, Some(Blame { byte: 0, key: 1 }));
    Ok(())
}
