//! Lines of cases, `KIND | TEXT => WANTED`, and the texts that they write.

use std::alloc::{AllocError, Global};

/// A case: what is asked of a text, with a number where the kind has one, and what is wanted.
#[derive(Clone, Copy, Debug)]
pub struct Case<'a> {
    pub kind: &'a str,
    pub number: u32,
    pub text: &'a str,
    pub wanted: &'a str,
}

impl<'a> Case<'a> {
    /// The case of a line; none where it has no such form.
    pub fn of(line: &'a str) -> Option<Case<'a>> {
        let (head, rest) = line.split_once(" | ")?;
        let (text, wanted) = rest.rsplit_once(" =>")?;
        let wanted = wanted.strip_prefix(" ").unwrap_or(wanted);
        let (kind, number) = head.split_once(" ").unwrap_or((head, "0"));
        let number = number.parse::<u32>().ok()?;
        Some(Case {
            kind,
            number,
            text,
            wanted,
        })
    }
}

/// The most bytes of a text.
const MOST: usize = 1_100_000;

/// Adds bytes, as long as there is room for them in a text.
fn add(out: &mut Vec<u8>, bytes: &[u8]) -> Result<(), AllocError> {
    if out.len().saturating_add(bytes.len()) <= MOST {
        out.extend_from_slice(bytes)?;
    }
    Ok(())
}

/// The control character that a picture stands for.
fn control(c: char) -> Option<u8> {
    match c {
        '⏎' => Some(b'\n'),
        '␉' => Some(b'\t'),
        '␋' => Some(0x0b),
        '␌' => Some(0x0c),
        '␍' => Some(b'\r'),
        _ => None,
    }
}

/// Adds a piece, in which pictures stand for control characters.
fn add_plain(alloc: Global, out: &mut Vec<u8>, piece: &str) -> Result<(), AllocError> {
    let mut plain = String::new(alloc);
    for c in piece.chars() {
        match control(c) {
            Some(byte) => plain.push(char::from(byte))?,
            None => plain.push(c)?,
        }
    }
    add(out, plain.as_str().as_bytes())
}

/// Adds what stands between brackets: `PIECE×N` is the piece N times, and anything else bytes as hexadecimal
/// digits, two each, with blanks between.
fn add_bracketed(alloc: Global, out: &mut Vec<u8>, inner: &str) -> Result<(), AllocError> {
    if let Some((piece, times)) = inner.rsplit_once("×") {
        let times = times.parse::<u32>().unwrap_or(0);
        for _ in 0..times {
            add_plain(alloc, out, piece)?;
        }
        return Ok(());
    }
    for digits in inner.split(" ") {
        if let Ok(byte) = u8::from_str_radix(digits, 16) {
            add(out, &[byte])?;
        }
    }
    Ok(())
}

/// The text that a case writes: each character is itself, but `⏎ ␉ ␋ ␌ ␍` are a line feed, a tab, a vertical
/// tab, a form feed and a carriage return, and `⟦PIECE×N⟧` and `⟦HH HH⟧` are as `add_bracketed` says.
pub fn written(alloc: Global, text: &str) -> Result<Vec<u8>, AllocError> {
    let mut out = Vec::new(alloc);
    for (at, part) in text.split("⟦").enumerate() {
        match part.split_once("⟧") {
            Some((inner, rest)) if at > 0 => {
                add_bracketed(alloc, &mut out, inner)?;
                add_plain(alloc, &mut out, rest)?;
            }
            _ => add_plain(alloc, &mut out, part)?,
        }
    }
    Ok(out)
}
