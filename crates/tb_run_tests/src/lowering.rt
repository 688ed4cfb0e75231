use std::alloc::{AllocError, Global};
use std::test::Fail;
use tb_lower::{law_names, lower_source};
use tb_mir::{Base, BinOp, Constant, Line, LocalKind, Mir, Operand, Place, RefKind, Rvalue};
use tb_small::small;

/// A local by its number.
fn local(alloc: Global, out: &mut Vec<u8>, local: u32) -> Result<(), AllocError> {
    let name = format!(in alloc; "_{local}")?;
    out.extend_from_slice(name.as_bytes())
}

fn operand(alloc: Global, out: &mut Vec<u8>, operand: Operand) -> Result<(), AllocError> {
    match operand {
        Operand::Temp(temp) => local(alloc, out, temp),
        Operand::Const(Constant::Unit) => out.extend_from_slice(b"()"),
        Operand::Const(Constant::Int(int)) => {
            let digits = format!(in alloc; "{int}")?;
            out.extend_from_slice(digits.as_bytes())
        }
    }
}

fn place(alloc: Global, out: &mut Vec<u8>, place: Place) -> Result<(), AllocError> {
    match place.base {
        Base::Variable(variable) => local(alloc, out, variable),
        Base::Deref(temp) => {
            out.push(b'*')?;
            local(alloc, out, temp)
        }
    }
}

/// The word of a kind of pointer.
fn kind_word(kind: RefKind) -> &'static [u8] {
    match kind {
        RefKind::Shared => b"shared",
        RefKind::Mut => b"mut",
        RefKind::RawConst => b"rawconst",
        RefKind::RawMut => b"rawmut",
    }
}

fn rvalue(alloc: Global, out: &mut Vec<u8>, rvalue: Rvalue) -> Result<(), AllocError> {
    match rvalue {
        Rvalue::Ref(kind, to) => {
            out.extend_from_slice(b"ref ")?;
            out.extend_from_slice(kind_word(kind))?;
            out.push(b' ')?;
            place(alloc, out, to)
        }
        Rvalue::Use(of) => operand(alloc, out, of),
        Rvalue::Binary(BinOp::Add, left, right) => {
            out.extend_from_slice(b"add ")?;
            operand(alloc, out, left)?;
            out.push(b' ')?;
            operand(alloc, out, right)
        }
    }
}

/// A word, and a local.
fn word(alloc: Global, out: &mut Vec<u8>, word: &[u8], of: u32) -> Result<(), AllocError> {
    out.extend_from_slice(word)?;
    local(alloc, out, of)
}

/// A print, in one spelling.
fn show_print(
    alloc: Global,
    out: &mut Vec<u8>,
    newline: bool,
    text: &[u8],
    operands: &[Operand],
) -> Result<(), AllocError> {
    out.extend_from_slice(if newline {
        b"println ".as_slice()
    } else {
        b"print ".as_slice()
    })?;
    out.extend_from_slice(text)?;
    for of in operands {
        out.push(b' ')?;
        operand(alloc, out, *of)?;
    }
    Ok(())
}

/// A line in one spelling.
fn show(alloc: Global, out: &mut Vec<u8>, line: &Line) -> Result<(), AllocError> {
    match line {
        Line::Live(variable) => word(alloc, out, b"live ", *variable),
        Line::Dead(variable) => word(alloc, out, b"dead ", *variable),
        Line::Load(temp, from) => {
            word(alloc, out, b"load ", *temp)?;
            out.push(b' ')?;
            place(alloc, out, *from)
        }
        Line::Store(to, of) => {
            out.extend_from_slice(b"store ")?;
            place(alloc, out, *to)?;
            out.push(b' ')?;
            operand(alloc, out, *of)
        }
        Line::Set(temp, of) => {
            word(alloc, out, b"set ", *temp)?;
            out.push(b' ')?;
            rvalue(alloc, out, *of)
        }
        Line::Print(newline, text, operands) => {
            show_print(alloc, out, *newline, text.as_slice(), operands.as_slice())
        }
        Line::Clear(temps) => {
            out.extend_from_slice(b"clear")?;
            for temp in temps.as_slice() {
                word(alloc, out, b" ", *temp)?;
            }
            Ok(())
        }
        Line::Retag(temp) => word(alloc, out, b"retag ", *temp),
        Line::Return => out.extend_from_slice(b"return"),
    }
}

/// The lines of a program, each ended by `; `.
fn shown(alloc: Global, mir: &Mir) -> Result<Vec<u8>, AllocError> {
    let mut out = Vec::new(alloc);
    for line in mir.lines(0, 0) {
        show(alloc, &mut out, &line.line)?;
        out.extend_from_slice(b"; ")?;
    }
    Ok(out)
}

/// The pieces of the source that the lines come from, one a line.
fn pieces(alloc: Global, source: &[u8], mir: &Mir) -> Result<Vec<u8>, AllocError> {
    let mut out = Vec::new(alloc);
    for line in mir.lines(0, 0) {
        let piece = source.get(line.span.lo as usize..line.span.hi as usize);
        out.extend_from_slice(piece.unwrap_or(b"?"))?;
        out.push(b'\n')?;
    }
    Ok(out)
}

/// The locals of a program: `v` for a variable, `t` for a temporary, and `p` for one of a place.
fn kinds(alloc: Global, mir: &Mir) -> Result<Vec<u8>, AllocError> {
    let mut out = Vec::new(alloc);
    for local in mir.locals(0) {
        out.push(match local.kind {
            LocalKind::Variable => b'v',
            LocalKind::Temp => b't',
            LocalKind::PlaceTemp => b'p',
        })?;
    }
    Ok(out)
}

/// Reads and lowers a source that is within the limits.
fn lowered(alloc: Global, source: &[u8]) -> Result<Mir, Fail> {
    if source.len() > 1_048_576 {
        return Err("too long")?;
    }
    let tree = small(alloc, source)?;
    Ok(lower_source(alloc, &tree)?)
}

#[test]
fn lines_and_locals(rt: HostRuntime) -> Result<(), Fail> {
    law_names();
    let rows: [(&[u8], &[u8], &[u8]); 10] = [
        (
            b"fn main() { let x = 40; let mut y = x + 1; y = y + 1; print!(\"{} {}\\n\", x, y); }",
            b"tvttvtttt",
            b"live _1; store _1 40; load _2 _1; set _3 add _2 1; live _4; store _4 _3; clear _2 _3; load _5 _4; set _6 add _5 1; store _4 _6; clear _5 _6; load _7 _1; load _8 _4; print {} {}\\n _7 _8; clear _7 _8; dead _4; dead _1; set _0 (); return; ",
        ),
        (b"fn main() {}", b"t", b"set _0 (); return; "),
        (
            b"fn main() { let a = 1; let a = a + a; println!(\"{}\", a); }",
            b"tvtttvt",
            b"live _1; store _1 1; load _2 _1; load _3 _1; set _4 add _2 _3; live _5; store _5 _4; clear _2 _3 _4; load _6 _5; println {} _6; clear _6; dead _5; dead _1; set _0 (); return; ",
        ),
        (
            b"fn main() { print!(\"a\"); print!(\"{}\", 7); }",
            b"t",
            b"print a; print {} 7; set _0 (); return; ",
        ),
        (
            b"fn main() { let mut x = 1; let a = &x; let b = &mut x; let c = &raw const x; let d = &raw mut x; }",
            b"tvtvtvtvtv",
            b"live _1; store _1 1; set _2 ref shared _1; live _3; store _3 _2; clear _2; set _4 ref mut _1; live _5; store _5 _4; clear _4; set _6 ref rawconst _1; live _7; store _7 _6; clear _6; set _8 ref rawmut _1; live _9; store _9 _8; clear _8; dead _9; dead _7; dead _5; dead _3; dead _1; set _0 (); return; ",
        ),
        (
            b"fn main() { let mut x = 1; let a = &mut x; let b = &*a; let c = *b + *a + x; }",
            b"tvtvptvptpttttv",
            b"live _1; store _1 1; set _2 ref mut _1; live _3; store _3 _2; clear _2; load _4 _3; set _5 ref shared *_4; live _6; store _6 _5; clear _4 _5; load _7 _6; load _8 *_7; load _9 _3; load _10 *_9; set _11 add _8 _10; load _12 _1; set _13 add _11 _12; live _14; store _14 _13; clear _7 _8 _9 _10 _11 _12 _13; dead _14; dead _6; dead _3; dead _1; set _0 (); return; ",
        ),
        (
            b"fn main() { let mut x = 1; let p = &raw mut x; unsafe { *p = x + 2; } x = 3; let q = p; let r = unsafe { *q }; }",
            b"tvtvttptvptv",
            b"live _1; store _1 1; set _2 ref rawmut _1; live _3; store _3 _2; clear _2; load _4 _1; set _5 add _4 2; load _6 _3; store *_6 _5; clear _4 _5 _6; clear _4 _5 _6; store _1 3; load _7 _3; live _8; store _8 _7; clear _7; load _9 _8; load _10 *_9; live _11; store _11 _10; clear _9 _10; dead _11; dead _8; dead _3; dead _1; set _0 (); return; ",
        ),
        (
            b"fn main() { let mut x = 1; let p = &raw mut x; unsafe { *p = 5; x = *p; print!(\"a\"); } unsafe { print!(\"b\"); } let y = 2; }",
            b"tvtvpptv",
            b"live _1; store _1 1; set _2 ref rawmut _1; live _3; store _3 _2; clear _2; load _4 _3; store *_4 5; clear _4; load _5 _3; load _6 *_5; store _1 _6; clear _5 _6; print a; clear _4 _5 _6; print b; live _7; store _7 2; dead _7; dead _3; dead _1; set _0 (); return; ",
        ),
        (
            b"fn main() { let mut x = 1; let p = &raw mut x; unsafe { *p = 2; println!(\"{}\", *p); } }",
            b"tvtvppt",
            b"live _1; store _1 1; set _2 ref rawmut _1; live _3; store _3 _2; clear _2; load _4 _3; store *_4 2; clear _4; load _5 _3; load _6 *_5; println {} _6; clear _5 _6; dead _3; dead _1; set _0 (); return; ",
        ),
        (
            b"fn main() { let x = 1; let r = &x; let mut p = &raw const x; p = &raw const *r; }",
            b"tvtvtvpt",
            b"live _1; store _1 1; set _2 ref shared _1; live _3; store _3 _2; clear _2; set _4 ref rawconst _1; live _5; store _5 _4; clear _4; load _6 _3; set _7 ref rawconst *_6; store _5 _7; clear _6 _7; dead _5; dead _3; dead _1; set _0 (); return; ",
        ),
    ];
    for (source, locals, lines) in rows {
        let mir = lowered(rt.alloc(), source)?;
        let (found, kept) = (shown(rt.alloc(), &mir)?, kinds(rt.alloc(), &mir)?);
        assert_eq!(rt; found.as_slice(), lines);
        assert_eq!(rt; kept.as_slice(), locals);
    }
    Ok(())
}

#[test]
fn spans(rt: HostRuntime) -> Result<(), Fail> {
    let source =
        b"fn main() { let mut x = 1 ; let r = & mut x ; * r = * r + 2 ; let p = & raw mut * r ; unsafe { * p = x ; println!( \"{}\" , * p ) ; } x = unsafe { * p } ; let q = p ; }";
    let wanted =
        b"let mut x = 1 ;\nlet mut x = 1 ;\n& mut x\nlet r = & mut x ;\nlet r = & mut x ;\nlet r = & mut x ;\n* r\n* r\n* r + 2\n* r\n* r = * r + 2\n* r = * r + 2 ;\n* r\n& raw mut * r\nlet p = & raw mut * r ;\nlet p = & raw mut * r ;\nlet p = & raw mut * r ;\nx\n* p\n* p = x\n* p = x ;\n* p\n* p\nprintln!( \"{}\" , * p )\nprintln!( \"{}\" , * p ) ;\nunsafe { * p = x ; println!( \"{}\" , * p ) ; }\n* p\n* p\nx = unsafe { * p }\nx = unsafe { * p } ;\np\nlet q = p ;\nlet q = p ;\nlet q = p ;\n{ let mut x = 1 ; let r = & mut x ; * r = * r + 2 ; let p = & raw mut * r ; unsafe { * p = x ; println!( \"{}\" , * p ) ; } x = unsafe { * p } ; let q = p ; }\n{ let mut x = 1 ; let r = & mut x ; * r = * r + 2 ; let p = & raw mut * r ; unsafe { * p = x ; println!( \"{}\" , * p ) ; } x = unsafe { * p } ; let q = p ; }\n{ let mut x = 1 ; let r = & mut x ; * r = * r + 2 ; let p = & raw mut * r ; unsafe { * p = x ; println!( \"{}\" , * p ) ; } x = unsafe { * p } ; let q = p ; }\n{ let mut x = 1 ; let r = & mut x ; * r = * r + 2 ; let p = & raw mut * r ; unsafe { * p = x ; println!( \"{}\" , * p ) ; } x = unsafe { * p } ; let q = p ; }\nfn main() { let mut x = 1 ; let r = & mut x ; * r = * r + 2 ; let p = & raw mut * r ; unsafe { * p = x ; println!( \"{}\" , * p ) ; } x = unsafe { * p } ; let q = p ; }\nfn main() { let mut x = 1 ; let r = & mut x ; * r = * r + 2 ; let p = & raw mut * r ; unsafe { * p = x ; println!( \"{}\" , * p ) ; } x = unsafe { * p } ; let q = p ; }\n";
    let mir = lowered(rt.alloc(), source)?;
    let found = pieces(rt.alloc(), source, &mir)?;
    assert_eq!(rt; found.as_slice(), wanted.as_slice());
    Ok(())
}
