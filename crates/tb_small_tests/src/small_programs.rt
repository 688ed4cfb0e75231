use std::alloc::{AllocError, Global};
use std::process::Abort;
use std::test::Fail;
use tb_perm::Span;
use tb_small::*;

/// A sum, with `#` before the number of a variable.
fn show_sum(alloc: Global, out: &mut Vec<u8>, sum: &Sum) -> Result<(), AllocError> {
    show_atom(alloc, out, &sum.first)?;
    for atom in sum.rest.as_slice() {
        out.extend_from_slice(b" + ")?;
        show_atom(alloc, out, atom)?;
    }
    Ok(())
}

fn show_atom(alloc: Global, out: &mut Vec<u8>, atom: &Atom) -> Result<(), AllocError> {
    match atom {
        Atom::Int(int) => show_number(alloc, out, int.value),
        Atom::Variable(variable) => show_variable(alloc, out, variable),
        Atom::Deref(deref) => {
            out.extend_from_slice(b"*")?;
            show_variable(alloc, out, &deref.variable)
        }
    }
}

fn show_variable(alloc: Global, out: &mut Vec<u8>, variable: &Variable) -> Result<(), AllocError> {
    out.extend_from_slice(b"#")?;
    show_number(alloc, out, variable.number)
}

fn show_spot(alloc: Global, out: &mut Vec<u8>, spot: &Spot) -> Result<(), AllocError> {
    match spot {
        Spot::Variable(variable) => show_variable(alloc, out, variable),
        Spot::Deref(deref) => {
            out.extend_from_slice(b"*")?;
            show_variable(alloc, out, &deref.variable)
        }
    }
}

fn kind_text(kind: RefKind) -> &'static [u8] {
    match kind {
        RefKind::Shared => b"&",
        RefKind::Mut => b"&mut ",
        RefKind::RawConst => b"&raw const ",
        RefKind::RawMut => b"&raw mut ",
    }
}

fn show_value(alloc: Global, out: &mut Vec<u8>, value: &Value) -> Result<(), AllocError> {
    match value {
        Value::Sum(sum) => show_sum(alloc, out, sum),
        Value::Borrow(borrow) => {
            out.extend_from_slice(kind_text(borrow.kind))?;
            show_spot(alloc, out, &borrow.operand)
        }
        Value::Pointer(variable) => show_variable(alloc, out, variable),
    }
}

fn show_right(alloc: Global, out: &mut Vec<u8>, right: &Right) -> Result<(), AllocError> {
    match right {
        Right::Plain(value) => show_value(alloc, out, value),
        Right::Unsafe(block) => {
            out.extend_from_slice(b"unsafe { ")?;
            show_value(alloc, out, &block.value)?;
            out.extend_from_slice(b" }")
        }
    }
}

fn show_assign(alloc: Global, out: &mut Vec<u8>, assign: &Assign) -> Result<(), AllocError> {
    show_spot(alloc, out, &assign.target)?;
    out.extend_from_slice(b" = ")?;
    show_right(alloc, out, &assign.value)
}

/// The text of a print and its arguments, behind the name of the macro where that is `println`.
fn show_print(alloc: Global, out: &mut Vec<u8>, print: &Print) -> Result<(), AllocError> {
    if print.newline {
        out.extend_from_slice(b"println ")?;
    }
    out.extend_from_slice(print.text.source.as_slice())?;
    for argument in print.arguments.as_slice() {
        out.extend_from_slice(b", ")?;
        show_sum(alloc, out, argument)?;
    }
    Ok(())
}

fn show_inner(alloc: Global, out: &mut Vec<u8>, inner: &Inner) -> Result<(), AllocError> {
    match inner {
        Inner::Assign(assign) => show_assign(alloc, out, assign)?,
        Inner::Print(print) => show_print(alloc, out, print)?,
    }
    out.extend_from_slice(b"; ")
}

fn show_unsafe(alloc: Global, out: &mut Vec<u8>, block: &UnsafeBlock) -> Result<(), AllocError> {
    out.extend_from_slice(b"unsafe { ")?;
    for inner in block.statements.as_slice() {
        show_inner(alloc, out, inner)?;
    }
    out.extend_from_slice(b"}")
}

fn show_number(alloc: Global, out: &mut Vec<u8>, number: u32) -> Result<(), AllocError> {
    let digits = format!(in alloc; "{number}").map_err(|_| AllocError)?;
    out.extend_from_slice(digits.as_bytes())
}

/// A statement in one spelling, with numbers in place of the names that it mentions.
fn show(alloc: Global, out: &mut Vec<u8>, statement: &Statement) -> Result<(), AllocError> {
    match statement {
        Statement::Let(binding) => {
            out.extend_from_slice(if binding.mutable {
                b"let mut ".as_slice()
            } else {
                b"let ".as_slice()
            })?;
            out.extend_from_slice(binding.name.bytes.as_slice())?;
            out.extend_from_slice(b" = ")?;
            show_right(alloc, out, &binding.value)?;
        }
        Statement::Assign(assign) => show_assign(alloc, out, assign)?,
        Statement::Print(print) => show_print(alloc, out, print)?,
        Statement::Unsafe(block) => show_unsafe(alloc, out, block)?,
    }
    out.extend_from_slice(b"; ")
}

/// The statements of a source.
fn shown(rt: &impl Abort, alloc: Global, text: &[u8]) -> Result<Vec<u8>, SmallError> {
    assert!(rt; text.len() <= 1_048_576);
    let tree = small(alloc, text)?;
    let mut out = Vec::new(alloc);
    for statement in tree.body.statements.as_slice() {
        show(alloc, &mut out, statement).map_err(|_| SmallError::Memory)?;
    }
    Ok(out)
}

/// Sources, and their statements.
const READ: [(&[u8], &[u8]); 37] = [
    (b"fn main(){}", b""),
    (b" \n fn main() {\n}\n ", b""),
    (b"fn main() { print!(\"\"); }", b"; "),
    (
        b"fn main() { print!(\"a b\"); print!(\"c\"); print!(\"a b\"); }",
        b"a b; c; a b; ",
    ),
    (
        b"fn main(){print!(\"one\\ntwo\\n\");print!(\"\\n\");}",
        b"one\\ntwo\\n; \\n; ",
    ),
    (
        b"fn\nmain ( ) { print ! ( \"x\" ) ; print\n!\n(\n\"y\"\n)\n;\n}",
        b"x; y; ",
    ),
    (
        b"fn main() { print!(\" ~!#'()*;n//\"); }",
        b" ~!#'()*;n//; ",
    ),
    (b"fn main() { let x = 1; }", b"let x = 1; "),
    (
        b"fn main(){let mut x=1+2;x=x+3;}",
        b"let mut x = 1 + 2; #0 = #0 + 3; ",
    ),
    (
        b"fn\nmain\n(\n)\n{\nlet\nmut\nx\n=\n1\n+\n2\n;\nx\n=\nx\n+\n3\n;\n}",
        b"let mut x = 1 + 2; #0 = #0 + 3; ",
    ),
    (
        b"fn main() { let a = 1; let b = 2; print!(\"{}{} {}\", b, a + 1, 7); }",
        b"let a = 1; let b = 2; {}{} {}, #1, #0 + 1, 7; ",
    ),
    (
        b"fn main() { let a = 1; let a = a + a; print!(\"{}\", a); }",
        b"let a = 1; let a = #0 + #0; {}, #1; ",
    ),
    (
        b"fn main() { let mut a = 1; let b = a; let a = 2; print!(\"{}\", a + b); }",
        b"let mut a = 1; let b = #0; let a = 2; {}, #2 + #1; ",
    ),
    (
        b"fn main() { let a = 1; let mut a = 2; a = a; }",
        b"let a = 1; let mut a = 2; #1 = #1; ",
    ),
    (
        b"fn main() { let mut print = 1; print = print; print!(\"{}\", print); }",
        b"let mut print = 1; #0 = #0; {}, #0; ",
    ),
    (
        b"fn main() { let main = 1; let i32 = main; }",
        b"let main = 1; let i32 = #0; ",
    ),
    (
        b"fn main() { let _a1_B = 1; let __ = _a1_B; }",
        b"let _a1_B = 1; let __ = #0; ",
    ),
    (
        b"fn main() { let lets = 1; let mutable = lets; let fnn = mutable; }",
        b"let lets = 1; let mutable = #0; let fnn = #1; ",
    ),
    (
        b"fn main() { let mut mutx = 1; mutx = 2; }",
        b"let mut mutx = 1; #0 = 2; ",
    ),
    (
        b"fn main() { let letx = 1; let mut lety = letx; lety = letx; }",
        b"let letx = 1; let mut lety = #0; #1 = #0; ",
    ),
    (
        b"fn main() { let a = 2147483647; let b = 000; let c = 00000000002147483647; }",
        b"let a = 2147483647; let b = 0; let c = 2147483647; ",
    ),
    (b"fn main() { print!(\"{}\\n\", 0); }", b"{}\\n, 0; "),
    (
        b"fn main() { let a = 1; print!(\"{}\", 1+a+a+1); }",
        b"let a = 1; {}, 1 + #0 + #0 + 1; ",
    ),
    (
        b"fn main() { print!(\"{} {}\", 1, 2); let a = 3; }",
        b"{} {}, 1, 2; let a = 3; ",
    ),
    (
        b"fn main() { println!(\"a\"); print!(\"b\"); println!(\"{}\\n\", 1); let println = 2; }",
        b"println a; b; println {}\\n, 1; let println = 2; ",
    ),
    (
        b"fn main() { let mut x = 1; let r = &x; let m = &mut x; let c = &raw const x; let p = &raw mut x; }",
        b"let mut x = 1; let r = &#0; let m = &mut #0; let c = &raw const #0; let p = &raw mut #0; ",
    ),
    (
        b"fn main(){let mut x=1;let r=&x;let m=&mut x;*m=*r+1+*m;print!(\"{}{}\",*r,2+*m);}",
        b"let mut x = 1; let r = &#0; let m = &mut #0; *#2 = *#1 + 1 + *#2; {}{}, *#1, 2 + *#2; ",
    ),
    (
        b"fn main() { let x = 1; let r = & x; let s = &*r; let c = & raw const * s; }",
        b"let x = 1; let r = &#0; let s = &*#1; let c = &raw const *#2; ",
    ),
    (
        b"fn main() { let mut x = 1; let m = &mut x; let n = &mut*m; let p = &raw mut*n; let s = &*n; }",
        b"let mut x = 1; let m = &mut #0; let n = &mut *#1; let p = &raw mut *#2; let s = &*#2; ",
    ),
    (
        b"fn main() { let mut x = 1; let p = &raw mut x; let y = unsafe { *p + 1 }; unsafe { *p = *p + y; } }",
        b"let mut x = 1; let p = &raw mut #0; let y = unsafe { *#1 + 1 }; unsafe { *#1 = *#1 + #2; }; ",
    ),
    (
        b"fn main() { let x = 1; let c = &raw const x; let r = unsafe { & * c }; print!(\"{}\", *r); }",
        b"let x = 1; let c = &raw const #0; let r = unsafe { &*#1 }; {}, *#2; ",
    ),
    (
        b"fn main() { let mut x = 1; let p = &raw mut x; let m = unsafe { &mut *p }; *m = 2; unsafe { } }",
        b"let mut x = 1; let p = &raw mut #0; let m = unsafe { &mut *#1 }; *#2 = 2; unsafe { }; ",
    ),
    (
        b"fn main() { let x = 1; let y = 2; let mut c = &raw const x; let d = c; c = &raw const y; c = d; c = unsafe { c }; }",
        b"let x = 1; let y = 2; let mut c = &raw const #0; let d = #2; #2 = &raw const #1; #2 = #3; #2 = unsafe { #2 }; ",
    ),
    (
        b"fn main(){let mut x=1;let p=&raw mut x;unsafe{*p=unsafe{*p+1};x=2;print!(\"{}\",*p);println!(\"\");}}",
        b"let mut x = 1; let p = &raw mut #0; unsafe { *#1 = unsafe { *#1 + 1 }; #0 = 2; {}, *#1; println ; }; ",
    ),
    (
        b"fn main() { let mut raw = 1; let r = &raw; let s = &mut raw; let c = &raw const raw; let m = &raw mut raw; }",
        b"let mut raw = 1; let r = &#0; let s = &mut #0; let c = &raw const #0; let m = &raw mut #0; ",
    ),
    (
        b"fn main() { let raw = 1; let r = & raw; let t = unsafe { &raw }; let rawconst = &raw; let s = &*rawconst; }",
        b"let raw = 1; let r = &#0; let t = unsafe { &#0 }; let rawconst = &#0; let s = &*#3; ",
    ),
    (
        b"fn main() { let x = 1; let x = &x; let x = *x; let x = x + 1; }",
        b"let x = 1; let x = &#0; let x = *#1; let x = #2 + 1; ",
    ),
];

#[test]
fn read(rt: HostRuntime) -> Result<(), Fail> {
    for (text, wanted) in READ {
        let out = shown(&rt, rt.alloc(), text)?;
        assert_eq!(rt; out.as_slice(), wanted);
    }
    Ok(())
}

/// Texts that have no tree.
const REFUSED: [&[u8]; 146] = [
    b"",
    b" \n",
    b"fn main() {",
    b"fn main() }",
    b"fnmain() {}",
    b"fn main_() {}",
    b"fn Main() {}",
    b"fn main() {} }",
    b"fn main() {};",
    b"fn main() {} fn main() {}",
    b"fn main()\t{}",
    b"fn main() { // \n }",
    b"fn main() { print!(\"x\") }",
    b"fn main() { print(\"x\"); }",
    b"fn main() { print!(\"x\", ); }",
    b"fn main() { print!(); }",
    b"fn main() { print!(\"x\");; }",
    b"fn main() { print!(\"x); }",
    b"fn main() { print!(\"\\\"); }",
    b"fn main() { print!(\"\\t\"); }",
    b"fn main() { print!(\"\\\\\"); }",
    b"fn main() { print!(\"\\\n\"); }",
    b"fn main() { print!(\"\n\"); }",
    b"fn main() { print!(\"\x1f\"); }",
    b"fn main() { print!(\"\x7f\"); }",
    b"fn main() { print!(\"\xc3\xa9\"); }",
    b"\xef\xbb\xbffn main() {}",
    b"fn main() { print!(\"{}\"); }",
    b"fn main() { print!(\"x\", 1); }",
    b"fn main() { print!(\"{} {}\", 1); }",
    b"fn main() { print!(\"{} {}\", 1, 2, 3); }",
    b"fn main() { print!(\"{\", 1); }",
    b"fn main() { print!(\"}\", 1); }",
    b"fn main() { print!(\"{ }\", 1); }",
    b"fn main() { print!(\"{{}}\", 1); }",
    b"fn main() { print!(\"{}\" 1); }",
    b"fn main() { print!(\"{}\", 1,); }",
    b"fn main() { print!(\"{}\",, 1); }",
    b"fn main() { x = 1; }",
    b"fn main() { let x = x; }",
    b"fn main() { print!(\"{}\", x); let x = 1; }",
    b"fn main() { let x = 1; x = 2; }",
    b"fn main() { let mut x = 1; let x = x; x = 2; }",
    b"fn main() { let x; }",
    b"fn main() { let x = ; }",
    b"fn main() { let x = 1 }",
    b"fn main() { let x = 1 +; }",
    b"fn main() { let x = + 1; }",
    b"fn main() { let x = 1 2; }",
    b"fn main() { let x = 1 - 1; }",
    b"fn main() { let x == 1; }",
    b"fn main() { letx = 1; }",
    b"fn main() { let mut = 1; }",
    b"fn main() { let mut mut x = 1; }",
    b"fn main() { let _ = 1; }",
    b"fn main() { let 1x = 1; }",
    b"fn main() { let while = 1; }",
    b"fn main() { let Self = 1; }",
    b"fn main() { let x = 2147483648; }",
    b"fn main() { let x = 18446744073709551616; }",
    b"fn main() { let x = 1i32; }",
    b"fn main() { let x = 1_0; }",
    b"fn main() { let mut x = 1; x += 1; }",
    b"fn main() { let x = 1; let y = *x; }",
    b"fn main() { let x = 1; *x = 2; }",
    b"fn main() { let x = 1; let y = &*x; }",
    b"fn main() { let x = 1; let c = &raw const x; let y = *c; }",
    b"fn main() { let mut x = 1; let p = &raw mut x; *p = 2; }",
    b"fn main() { let mut x = 1; let p = &raw mut x; print!(\"{}\", *p); }",
    b"fn main() { let mut x = 1; let p = &raw mut x; let r = &*p; }",
    b"fn main() { let mut x = 1; let p = &raw mut x; unsafe { } *p = 2; }",
    b"fn main() { let mut x = 1; let p = &raw mut x; x = unsafe { *p } + *p; }",
    b"fn main() { let x = 1; let m = &mut x; }",
    b"fn main() { let x = 1; let p = &raw mut x; }",
    b"fn main() { let x = 1; let r = &x; let m = &mut *r; }",
    b"fn main() { let x = 1; let r = &x; let p = &raw mut *r; }",
    b"fn main() { let x = 1; let c = &raw const x; let m = unsafe { &mut *c }; }",
    b"fn main() { let x = 1; let r = &x; *r = 2; }",
    b"fn main() { let x = 1; let c = &raw const x; unsafe { *c = 2; } }",
    b"fn main() { let x = 1; let mut c = &raw const x; c = &x; }",
    b"fn main() { let mut x = 1; let mut c = &raw const x; c = &raw mut x; }",
    b"fn main() { let mut x = 1; let mut p = &raw mut x; p = 1; }",
    b"fn main() { let mut x = 1; let p = &raw mut x; x = p; }",
    b"fn main() { let mut x = 1; let m = &mut x; *m = &x; }",
    b"fn main() { let x = 1; let y = 2; let c = &raw const x; c = &raw const y; }",
    b"fn main() { let x = 1; let mut r = &x; r = &x; }",
    b"fn main() { let x = 1; let r = &x; let s = r; }",
    b"fn main() { let x = 1; let r = &x; let y = r + 1; }",
    b"fn main() { let x = 1; let r = &x; let y = 1 + r; }",
    b"fn main() { let x = 1; let r = &x; print!(\"{}\", r); }",
    b"fn main() { let x = 1; let c = &raw const x; let y = c + 1; }",
    b"fn main() { let x = 1; let c = &raw const x; print!(\"{}\", c); }",
    b"fn main() { let x = 1; let r = &x; let s = &r; }",
    b"fn main() { let x = 1; let c = &raw const x; let d = &c; }",
    b"fn main() { let x = 1; let r = &x; let y = **r; }",
    b"fn main() { let x = 1; let y = *&x; }",
    b"fn main() { let x = 1; let r = &1; }",
    b"fn main() { let x = 1; let r = &x + 1; }",
    b"fn main() { let x = 1; let r = &(x); }",
    b"fn main() { let x = 1; let r = &&x; }",
    b"fn main() { let x = 1; let r = & &x; }",
    b"fn main() { let x = 1; let r = &raw x; }",
    b"fn main() { let raw = 1; let r = &raw raw; }",
    b"fn main() { let x = 1; let r = &const x; }",
    b"fn main() { let mut x = 1; let r = &mut mut x; }",
    b"fn main() { let x = 1; let c = &raw const; }",
    b"fn main() { let x = 1; let r = &rawconst x; }",
    b"fn main() { let x = 1; let r = &raw const const x; }",
    b"fn main() { let raw = 1; let r = &raw const; }",
    b"fn main() { let raw = 1; let r = &raw mut; }",
    b"fn main() { let mut x = 1; x *= 1; }",
    b"fn main() { let mut x = 1; x &= 1; }",
    b"fn main() { let mut x = 1; let m = &mut x; *m *= 1; }",
    b"fn main() { let mut x = 1; let m = &mut x; *m += 1; }",
    b"fn main() { let mut x = 1; let m = &mut x; *m == 1; }",
    b"fn main() { let mut x = 1; x ==1; }",
    b"fn main() { let x = 1 &1; }",
    b"fn main() { let x = 1; let r =&= x; }",
    b"fn main() { unsafe { unsafe { } } }",
    b"fn main() { unsafe { let x = 1; } }",
    b"fn main() { let x = unsafe { unsafe { 1 } }; }",
    b"fn main() { let x = unsafe { 1; }; }",
    b"fn main() { let x = unsafe { }; }",
    b"fn main() { unsafe { 1 } }",
    b"fn main() { unsafe { print!(\"\") } }",
    b"fn main() { unsafe { }",
    b"fn main() { unsafe } }",
    b"fn main() { unsafe; }",
    b"fn main() { let unsafe = 1; }",
    b"fn main() { let x = unsafe 1; }",
    b"fn main() { let x = unsafe { 1 } + 1; }",
    b"fn main() { let x = 1 + unsafe { 1 }; }",
    b"fn main() { print!(\"{}\", unsafe { 1 }); }",
    b"fn main() { let x = 1; let r = &unsafe { x }; }",
    b"fn main() { let mut x = 1; unsafe { x } = 2; }",
    b"fn main() { unsafe { x = 1; } }",
    b"fn main() { unsafe { let x = 1; } x = 1; }",
    b"fn main() { printline!(\"\"); }",
    b"fn main() { println !=(\"\"); }",
    b"fn main() { eprint!(\"\"); }",
    b"fn main() { print ln!(\"\"); }",
    b"fn main() { *x = 1; }",
    b"fn main() { &x = 1; }",
    b"fn main() { let *x = 1; }",
    b"fn main() { let &x = 1; }",
    b"fn main() { let x: i32 = 1; }",
];

#[test]
fn refused(rt: HostRuntime) {
    for text in REFUSED {
        assert!(rt; matches!(shown(&rt, rt.alloc(), text), Err(SmallError::NotBuilt)));
    }
}

/// A source of one piece many times between two others.
fn repeated(
    alloc: Global,
    front: &[u8],
    piece: &[u8],
    count: u32,
    back: &[u8],
) -> Result<Vec<u8>, AllocError> {
    let mut text = Vec::from_slice(alloc, front)?;
    for _ in 0..count {
        text.extend_from_slice(piece)?;
    }
    text.extend_from_slice(back)?;
    Ok(text)
}

/// Front, piece, how often it is within the limits, and back: one more is refused.
const LIMITS: [(&[u8], &[u8], u32, &[u8]); 9] = [
    (b"fn main() { let a = 1", b"+1", 63, b"; }"),
    (
        b"fn main() { let a = 1; print!(\"{}\", a",
        b" + a",
        63,
        b"); }",
    ),
    (b"fn main() { ", b"let a = 1;", 4095, b"}"),
    (b"fn main() { let mut a = 1; ", b"a = a + 1; ", 2047, b"}"),
    (
        b"fn main() { let mut a = 1; a = a + a; ",
        b"a = a; ",
        4091,
        b"}",
    ),
    (
        b"fn main() { let a = 1; ",
        b"let b = a; print!(\"{}\", b); ",
        1363,
        b"let c = a + 1; }",
    ),
    (
        b"fn main() { let mut a = 1; let r = &mut a; ",
        b"*r = *r; ",
        1364,
        b"}",
    ),
    (
        b"fn main() { let mut a = 1; let mut p = &raw mut a; unsafe { ",
        b"p = &raw mut *p; ",
        2045,
        b"p = p; }}",
    ),
    (
        b"fn main() { let a = 1; let r = &a; print!(\"{}{}\", *r + *r, *r); ",
        b"let b = &a; ",
        2042,
        b"let b = 1; }",
    ),
];

#[test]
fn limits(rt: HostRuntime) -> Result<(), Fail> {
    for (front, piece, count, back) in LIMITS {
        let most = repeated(rt.alloc(), front, piece, count, back)?;
        assert!(rt; shown(&rt, rt.alloc(), &most).is_ok());
        let more = repeated(rt.alloc(), front, piece, count + 1, back)?;
        assert!(rt; matches!(shown(&rt, rt.alloc(), &more), Err(SmallError::NotBuilt)));
    }
    Ok(())
}

/// A mention of a variable.
fn variable(lo: u32, hi: u32, number: u32) -> Variable {
    Variable {
        span: Span { lo, hi },
        number,
    }
}

#[test]
fn spans(rt: HostRuntime) -> Result<(), Fail> {
    let tree = small(
        rt.alloc(),
        b"\nfn main () { \n let mut ab = 1+23 ; ab = ab ; print! ( \"{}\\n\" , ab ) ; }\n",
    )?;
    assert_eq!(rt; tree.function, Span { lo: 1, hi: 72 });
    assert_eq!(rt; tree.body.span, Span { lo: 12, hi: 72 });
    let statements = tree.body.statements.as_slice();
    assert_eq!(rt; statements.len(), 3);
    assert!(rt; matches!(&statements[0], Statement::Let(_)));
    if let Statement::Let(binding) = &statements[0] {
        assert_eq!(rt; binding.span, Span { lo: 16, hi: 35 });
        assert_eq!(rt; binding.name.span, Span { lo: 24, hi: 26 });
        assert_eq!(rt; binding.ty, Ty::Int32);
        assert!(rt; matches!(&binding.value, Right::Plain(Value::Sum(_))));
        if let Right::Plain(Value::Sum(sum)) = &binding.value {
            assert_eq!(rt;
                sum.first,
                Atom::Int(Int {
                    span: Span { lo: 29, hi: 30 },
                    value: 1
                })
            );
            assert_eq!(rt; sum.rest.len(), 1);
            assert_eq!(rt;
                sum.rest.as_slice()[0],
                Atom::Int(Int {
                    span: Span { lo: 31, hi: 33 },
                    value: 23
                })
            );
        }
    }
    assert!(rt; matches!(&statements[1], Statement::Assign(_)));
    if let Statement::Assign(assign) = &statements[1] {
        assert_eq!(rt; assign.span, Span { lo: 36, hi: 45 });
        assert_eq!(rt; assign.target, Spot::Variable(variable(36, 38, 0)));
        assert!(rt; matches!(&assign.value, Right::Plain(Value::Sum(_))));
        if let Right::Plain(Value::Sum(sum)) = &assign.value {
            assert_eq!(rt; sum.first, Atom::Variable(variable(41, 43, 0)));
        }
    }
    assert!(rt; matches!(&statements[2], Statement::Print(_)));
    if let Statement::Print(print) = &statements[2] {
        assert_eq!(rt; print.span, Span { lo: 46, hi: 70 });
        assert_eq!(rt; print.call, Span { lo: 46, hi: 68 });
        assert_eq!(rt; print.text.span, Span { lo: 55, hi: 61 });
        assert_eq!(rt; print.arguments.len(), 1);
    }
    Ok(())
}

/// A source with each form that has a pointer.
const POINTERS: &[u8] =
    b"fn main(){let mut x=1;let m = & mut x ;* m=* m+1; unsafe { x = unsafe { *m } ; print! ( \"\" ) ; } let c = &raw const*m;}";

#[test]
fn pointer_spans(rt: HostRuntime) -> Result<(), Fail> {
    let tree = small(rt.alloc(), POINTERS)?;
    let statements = tree.body.statements.as_slice();
    assert_eq!(rt; statements.len(), 5);
    assert!(rt; matches!(&statements[1], Statement::Let(_)));
    if let Statement::Let(binding) = &statements[1] {
        assert_eq!(rt; binding.span, Span { lo: 22, hi: 39 });
        assert_eq!(rt; binding.ty, Ty::Pointer(RefKind::Mut));
        assert!(rt; matches!(&binding.value, Right::Plain(Value::Borrow(_))));
        if let Right::Plain(Value::Borrow(borrow)) = &binding.value {
            assert_eq!(rt; borrow.span, Span { lo: 30, hi: 37 });
            assert_eq!(rt; borrow.kind, RefKind::Mut);
            assert_eq!(rt; borrow.operand, Spot::Variable(variable(36, 37, 0)));
        }
    }
    assert!(rt; matches!(&statements[2], Statement::Assign(_)));
    if let Statement::Assign(assign) = &statements[2] {
        assert_eq!(rt; assign.span, Span { lo: 39, hi: 49 });
        assert_eq!(rt;
            assign.target,
            Spot::Deref(Deref {
                span: Span { lo: 39, hi: 42 },
                variable: variable(41, 42, 1)
            })
        );
        assert!(rt; matches!(&assign.value, Right::Plain(Value::Sum(_))));
        if let Right::Plain(Value::Sum(sum)) = &assign.value {
            assert_eq!(rt;
                sum.first,
                Atom::Deref(Deref {
                    span: Span { lo: 43, hi: 46 },
                    variable: variable(45, 46, 1)
                })
            );
        }
    }
    assert!(rt; matches!(&statements[4], Statement::Let(_)));
    if let Statement::Let(binding) = &statements[4] {
        assert_eq!(rt; binding.ty, Ty::Pointer(RefKind::RawConst));
        assert!(rt; matches!(&binding.value, Right::Plain(Value::Borrow(_))));
        if let Right::Plain(Value::Borrow(borrow)) = &binding.value {
            assert_eq!(rt; borrow.span, Span { lo: 105, hi: 117 });
            assert_eq!(rt;
                borrow.operand,
                Spot::Deref(Deref {
                    span: Span { lo: 115, hi: 117 },
                    variable: variable(116, 117, 1)
                })
            );
        }
    }
    Ok(())
}

#[test]
fn unsafe_spans(rt: HostRuntime) -> Result<(), Fail> {
    let tree = small(rt.alloc(), POINTERS)?;
    let statements = tree.body.statements.as_slice();
    assert_eq!(rt; statements.len(), 5);
    assert!(rt; matches!(&statements[3], Statement::Unsafe(_)));
    if let Statement::Unsafe(block) = &statements[3] {
        assert_eq!(rt; block.span, Span { lo: 50, hi: 96 });
        let inners = block.statements.as_slice();
        assert_eq!(rt; inners.len(), 2);
        assert!(rt; matches!(&inners[0], Inner::Assign(_)));
        if let Inner::Assign(assign) = &inners[0] {
            assert_eq!(rt; assign.span, Span { lo: 59, hi: 78 });
            assert_eq!(rt; assign.target, Spot::Variable(variable(59, 60, 0)));
            assert!(rt; matches!(&assign.value, Right::Unsafe(_)));
            if let Right::Unsafe(right) = &assign.value {
                assert_eq!(rt; right.span, Span { lo: 63, hi: 76 });
                assert!(rt; matches!(&right.value, Value::Sum(_)));
                if let Value::Sum(sum) = &right.value {
                    assert_eq!(rt;
                        sum.first,
                        Atom::Deref(Deref {
                            span: Span { lo: 72, hi: 74 },
                            variable: variable(73, 74, 1)
                        })
                    );
                }
            }
        }
        assert!(rt; matches!(&inners[1], Inner::Print(_)));
        if let Inner::Print(print) = &inners[1] {
            assert_eq!(rt; print.span, Span { lo: 79, hi: 94 });
            assert_eq!(rt; print.call, Span { lo: 79, hi: 92 });
        }
    }
    Ok(())
}
