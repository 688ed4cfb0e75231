use sqlite_items::Items;
use std::alloc::{AllocError, Global};
use std::test::Fail;
use tb_mir::{Block, Func, Line, Mir, MirLine};
use tb_perm::Span;

/// A block of one line for each of these starts of a span.
fn block(alloc: Global, starts: &[u32]) -> Result<Block, AllocError> {
    let mut lines = Vec::new(alloc);
    for lo in starts {
        let span = Span { lo: *lo, hi: 99 };
        lines.push(MirLine {
            line: Line::Return,
            span,
        })?;
    }
    Ok(Block {
        lines: Items::from_vec(lines),
    })
}

/// A function without locals, of two blocks of these lines.
fn func(alloc: Global, first: &[u32], second: &[u32]) -> Result<Func, AllocError> {
    let mut blocks = Vec::new(alloc);
    blocks.push(block(alloc, first)?)?;
    blocks.push(block(alloc, second)?)?;
    Ok(Func {
        name: Items::from_slice(alloc, b"f")?,
        params: Items::new(alloc),
        locals: Items::new(alloc),
        blocks: Items::from_vec(blocks),
    })
}

#[test]
fn lines_by_their_places(rt: HostRuntime) -> Result<(), Fail> {
    let mut funcs = Vec::new(rt.alloc());
    funcs.push(func(rt.alloc(), &[10, 11, 12], &[13])?)?;
    funcs.push(func(rt.alloc(), &[], &[20, 21])?)?;
    let mir = Mir {
        funcs: Items::from_vec(funcs),
    };
    let counts = [
        (0, 0, 3),
        (0, 1, 1),
        (0, 2, 0),
        (1, 0, 0),
        (1, 1, 2),
        (2, 0, 0),
        (4_294_967_295, 0, 0),
    ];
    for (func, block, count) in counts {
        assert_eq!(rt; mir.lines(func, block).len(), count);
    }
    let lines = [
        (0, 0, 0, Some(10)),
        (0, 0, 2, Some(12)),
        (0, 0, 3, None),
        (0, 1, 0, Some(13)),
        (1, 1, 1, Some(21)),
        (1, 0, 0, None),
        (2, 0, 0, None),
    ];
    for (func, block, at, wanted) in lines {
        let found = mir.line(func, block, at).map(|line| line.span.lo);
        assert_eq!(rt; found, wanted);
    }
    Ok(())
}
