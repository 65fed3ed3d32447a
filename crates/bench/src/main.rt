//! Performs the calls of a script on a new recorder, and prints what comes of each.
//!
//! Each line of standard input names a call, and its answer is printed before the next line is waited for.
#![tactic(auto)]

mod bench;

use crate::bench::{Bench, refused};
use hex_text::ShortBytes;
use script::{Answer, Call};
use std::io;
use std::io::{BufRead, BufReader, Write};

fn main(rt: HostRuntime) -> io::Result<()> {
    match Bench::new() {
        Ok(mut bench) => perform_script(&rt, &mut bench),
        Err(refusal) => print_line(&rt, refused(refusal).text()),
    }
}

fn perform_script(rt: &HostRuntime, bench: &mut Bench) -> io::Result<()> {
    for line in BufReader::new(rt.alloc(), rt.stdin())?.split(rt.alloc(), b'\n') {
        print_line(rt, perform_line(bench, line?.as_slice()))?;
    }
    Ok(())
}

/// The answer to a line, as a line.
fn perform_line(bench: &mut Bench, line: &[u8]) -> ShortBytes {
    match Call::parse(line) {
        Some(call) => bench.perform(call),
        None => Answer::Bad.text(),
    }
}

/// Prints an answer in one piece: the longest, of 80 wire bytes, leaves room for the line feed.
fn print_line(rt: &HostRuntime, mut text: ShortBytes) -> io::Result<()> {
    text.push(b'\n');
    rt.stdout().write_all(text.as_slice())
}
