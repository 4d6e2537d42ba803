// Runs the program on cases. Each argument names a file of data/ with cases one after the other: a line that names the case, a line with its
// length, its bytes and a newline. After a case's name stands what the program writes, and a newline.
#![tactic(auto)]

ghost use Rattle.std.specs.Prelude.{◌<◌, length, IfSome};

use fill::read_full;
use std::env::FillError;
use std::rt::{Env, Files};
use std::{fs, io, str};

// The most bytes of a file, and of its name.
const FILE_SPACE: usize = 131072;

const NAME_SPACE: usize = 4096;

fn title(rt: &impl Print, name: &[u8]) -> io::Result<()> {
    rt.write_all(b"== ")?;
    rt.write_all(name)?;
    rt.write_all(b"\n")
}

fn answer(rt: &impl Print, input: &[u8]) -> io::Result<()> {
    let mut out = [0u8; sheet::OUT_SPACE];
    let answer = sheet::run(input, &mut out);
    rt.write_all(&out[..answer.written])?;
    rt.write_all(b"\n")
}

// The first line, and what stands after its newline.
fn first_line<'a>(s: &'a [u8]) -> Option<(&'a [u8], &'a [u8])>
    ensures { IfSome result (λ parts. length parts.1.now < length s.now) }
{
    let end = sheet::line_length(s);
    let rest = s.get(end + 1..)?;
    Some((&s[..end], rest))
}

// What the program is given in the case that starts s, and what stands after the case.
fn input<'a>(s: &'a [u8]) -> Option<(&'a [u8], &'a [u8])>
    ensures { IfSome result (λ parts. length parts.1.now < length s.now) }
{
    let (_, counted) = first_line(s)?;
    let (digits, bytes) = first_line(counted)?;
    let size = sheet::number(digits)? as usize;
    let given = bytes.get(..size)?;
    Some((given, bytes.get(size + 1..).unwrap_or(b"")))
}

// A case: its name, what the program is given, and what stands after it. What is no case gives nothing, and nothing stands after it.
#[derive(Clone, Copy)]
struct Case<'a> {
    name: &'a [u8],
    input: Option<&'a [u8]>,
    rest: &'a [u8],
}

// The case that starts s.
fn one<'a>(s: &'a [u8]) -> Case<'a>
    requires { 0 < length s.now }
    ensures { length result.rest.now < length s.now }
{
    let name = &s[..sheet::line_length(s)];
    match input(s) {
        Some((given, rest)) => Case {
            name,
            input: Some(given),
            rest,
        },
        None => Case {
            name,
            input: None,
            rest: b"",
        },
    }
}

// The case's title, and what the program writes for it.
fn show(rt: &impl Print, case: Case<'_>) -> io::Result<()> {
    title(rt, case.name)?;
    match case.input {
        Some(input) => answer(rt, input),
        None => Ok(()),
    }
}

fn each(rt: &impl Print, s: &[u8]) -> io::Result<()> {
    let mut left = s;
    while !left.is_empty() {
        let case = one(left);
        show(rt, case)?;
        left = case.rest;
    }
    Ok(())
}

fn file<R: Files + Print + Eprint + Alloc>(rt: &R, name: &str) -> io::Result<()> {
    match fs::open(rt, name) {
        Ok(mut opened) => {
            let mut s = [0u8; FILE_SPACE];
            let n = read_full(&mut opened, &mut s)?;
            each(rt, &s[..n])
        }
        Err(error) => eprintln!(rt; "{name}: {error}"),
    }
}

// What cannot name a file is told, and the next argument follows.
fn files<R: Env + Files + Print + Eprint + Alloc>(rt: &R) -> io::Result<()> {
    let mut name = [0u8; NAME_SPACE];
    for i in 1..usize::MAX {
        match rt.arg(i, &mut name) {
            Ok(n) => match str::from_utf8(&name[..n]) {
                Ok(text) => file(rt, text)?,
                Err(_) => eprintln!(rt; "argument {i} is not UTF-8")?,
            },
            Err(FillError::NotPresent) => return Ok(()),
            Err(FillError::TooLong) => eprintln!(rt; "argument {i} is too long")?,
        }
    }
    Ok(())
}

fn main(rt: HostRuntime) -> io::Result<()> {
    files(&rt)
}
