//! Sends pages over both lines of the service cable, and shows what the far end makes of them.
//!
//! Each line of standard input is a page: bytes of two upper-case hexadecimal digits, with one space between them.
#![tactic(auto)]

use hex_text::{read, write};
use line::{Asynchronous, Line, REPLY_BYTES, ThreeWire, WIRE_BYTES, send};
use refusal::Refusal;
use std::io;
use std::io::{BufRead, BufReader, Write};

fn main(rt: HostRuntime) -> io::Result<()> {
    for text in BufReader::new(rt.alloc(), rt.stdin())?.split(rt.alloc(), b'\n') {
        show_page(&rt, text?.as_slice())?;
    }
    Ok(())
}

/// One page, or `bad` where the line has another form.
fn show_page(rt: &HostRuntime, text: &[u8]) -> io::Result<()> {
    let Some(page) = read(text) else {
        return println!(rt; "bad");
    };
    show_trip(rt, "3-wire", &mut ThreeWire::new(), page.as_slice())?;
    show_trip(
        rt,
        "asynchronous",
        &mut Asynchronous::new(),
        page.as_slice(),
    )
}

/// One page over one line: each action, and what came of it.
fn show_trip<L: Line>(rt: &HostRuntime, name: &str, line: &mut L, page: &[u8]) -> io::Result<()> {
    println!(rt; "{name}")?;
    if let Err(refusal) = send(line, page) {
        return show_refusal(rt, "send", refusal);
    }
    println!(rt; "  send: ok")?;
    let mut wire = [0; WIRE_BYTES];
    match line.collect(&mut wire) {
        Ok(count) => show_far_end::<L>(rt, &mut wire[0..count]),
        Err(refusal) => show_refusal(rt, "collect", refusal),
    }
}

/// The far end checks the wire bytes, and then checks them again with one bit of them turned over.
fn show_far_end<L: Line>(rt: &HostRuntime, sent: &mut [u8]) -> io::Result<()> {
    show_bytes(rt, "collect", sent)?;
    show_check::<L>(rt, sent)?;
    if let Some(first) = sent.first_mut() {
        *first ^= 1;
    }
    show_bytes(rt, "damage", sent)?;
    show_check::<L>(rt, sent)
}

/// What the far end makes of wire bytes.
fn show_check<L: Line>(rt: &HostRuntime, sent: &[u8]) -> io::Result<()> {
    let mut data = [0; REPLY_BYTES];
    match L::check(sent, &mut data) {
        Ok(count) => show_bytes(rt, "check", &data[0..count]),
        Err(refusal) => show_refusal(rt, "check", refusal),
    }
}

fn show_bytes(rt: &HostRuntime, action: &str, bytes: &[u8]) -> io::Result<()> {
    print!(rt; "  {action}: ")?;
    rt.stdout().write_all(write(bytes).as_slice())?;
    println!(rt; "")
}

fn show_refusal(rt: &HostRuntime, action: &str, refusal: Refusal) -> io::Result<()> {
    let number = refusal.number();
    println!(rt; "  {action}: no {number}")
}
