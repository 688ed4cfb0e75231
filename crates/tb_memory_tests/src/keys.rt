use std::test::Fail;
use tb_shape::Shape;

#[test]
fn keeps_parents_and_children(rt: HostRuntime) -> Result<(), Fail> {
    // The root 1 has the children 7 and 3, and 7 has the child 5.
    let mut shape = Shape::new(rt.alloc(), 1)?;
    shape.add_child(1, 7)?;
    shape.add_child(1, 3)?;
    shape.add_child(7, 5)?;
    assert_eq!(rt; shape.root(), 1);
    assert_eq!(rt; shape.parent(1), None);
    assert_eq!(rt; shape.parent(5), Some(7));
    assert_eq!(rt; shape.parent(9), None);
    assert_eq!(rt; shape.children(1).len(), 2);
    assert_eq!(rt; shape.children(5).len(), 0);
    assert_eq!(rt; shape.children(9).len(), 0);
    assert!(rt; shape.is_ancestor(7, 5));
    assert!(rt; shape.is_ancestor(5, 5));
    assert!(rt; !shape.is_ancestor(3, 5));
    assert!(rt; !shape.is_ancestor(9, 9));
    assert_eq!(rt; shape.path(5)?.as_slice(), [5, 7, 1].as_slice());
    shape.splice(7);
    assert_eq!(rt; shape.parent(5), Some(1));
    shape.drop_leaf(3);
    assert_eq!(rt; shape.children(1).len(), 1);
    Ok(())
}
