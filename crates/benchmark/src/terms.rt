//! Terms as bytes: small control terms, and one of about a megabyte.

use crate::pids::pid;
use crate::printing::print;
use crate::rate::Rate;
use anyhow::Result;
use erl_term::{Term, decode, encode};
use std::alloc::{AllocError, Global};
use std::hint::black_box;
use std::time::Instant;

/// The elements of each of the two levels of the large term.
const WIDTH: usize = 160;

/// How often a control term is read or written.
const SMALL_ROUNDS: u64 = 2_000_000;

/// How often a large term is read or written.
const LARGE_ROUNDS: u64 = 50;

/// How often the binary is read or written.
const BINARY_ROUNDS: u64 = 2_000;

/// The elements of the list.
const INTEGERS: usize = 100_000;

/// The bytes of the binary.
const BYTES: usize = 1_000_000;

pub fn measure(rt: &HostRuntime) -> Result<()> {
    let alloc = rt.alloc();
    measure_term(rt, "link", &link(alloc)?, SMALL_ROUNDS)?;
    measure_term(rt, "unlink", &unlink(alloc)?, SMALL_ROUNDS)?;
    measure_term(rt, "links in links", &table(alloc)?, LARGE_ROUNDS)?;
    measure_term(rt, "list of integers", &integers(alloc)?, LARGE_ROUNDS)?;
    measure_term(rt, "binary", &binary(alloc)?, BINARY_ROUNDS)
}

/// Writes and reads the term so many times.
fn measure_term(rt: &HostRuntime, name: &str, term: &Term, rounds: u64) -> Result<()> {
    let alloc = rt.alloc();
    let bytes = encode(alloc, term)?;
    let start = Instant::now(rt)?;
    for _ in 0..rounds {
        black_box(encode(alloc, term)?);
    }
    let encoding = Rate {
        name: "encode",
        rounds,
        bytes: bytes.len(),
        elapsed: start.elapsed(rt)?,
    };
    let start = Instant::now(rt)?;
    for _ in 0..rounds {
        black_box(decode(alloc, bytes.as_slice())?);
    }
    let decoding = Rate {
        name: "decode",
        rounds,
        bytes: bytes.len(),
        elapsed: start.elapsed(rt)?,
    };
    println!(rt; "{name}, {} bytes", bytes.len())?;
    print(rt, &encoding)?;
    print(rt, &decoding)
}

// Want of memory is plain here: an error that holds a term is dear to prove at each place.
fn push(items: &mut Vec<Term>, item: Term) -> Result<(), AllocError> {
    items.push(item)?;
    Ok(())
}

/// The control term of LINK: {1, From, To}.
fn link(alloc: Global) -> Result<Term> {
    let mut items = Vec::with_capacity(alloc, 3)?;
    push(&mut items, Term::Int(1))?;
    push(&mut items, Term::Pid(pid(alloc, "a@h", 1)?))?;
    push(&mut items, Term::Pid(pid(alloc, "b@h", 1)?))?;
    Ok(Term::Tuple(items))
}

/// The control term of UNLINK_ID: {35, Id, From, To}.
fn unlink(alloc: Global) -> Result<Term> {
    let mut items = Vec::with_capacity(alloc, 4)?;
    push(&mut items, Term::Int(35))?;
    push(&mut items, Term::Int(1))?;
    push(&mut items, Term::Pid(pid(alloc, "a@h", 1)?))?;
    push(&mut items, Term::Pid(pid(alloc, "b@h", 1)?))?;
    Ok(Term::Tuple(items))
}

/// A tuple of tuples of control terms.
fn table(alloc: Global) -> Result<Term> {
    let mut rows = Vec::with_capacity(alloc, WIDTH)?;
    for _ in 0..WIDTH {
        let mut row = Vec::with_capacity(alloc, WIDTH)?;
        for _ in 0..WIDTH {
            push(&mut row, link(alloc)?)?;
        }
        push(&mut rows, Term::Tuple(row))?;
    }
    Ok(Term::Tuple(rows))
}

/// The integers from 0.
fn integers(alloc: Global) -> Result<Term, AllocError> {
    let mut items = Vec::with_capacity(alloc, INTEGERS)?;
    for i in 0..INTEGERS {
        push(&mut items, Term::Int(i as i128))?;
    }
    Ok(Term::list(items))
}

fn binary(alloc: Global) -> Result<Term, AllocError> {
    let mut bytes = Vec::with_capacity(alloc, BYTES)?;
    for _ in 0..BYTES {
        bytes.push(7)?;
    }
    Ok(Term::Binary(bytes))
}
