// Prints the product of two coupling sheets. Standard input is one ASCII digit, the method, then sheet A, then sheet B.
// A product is printed as "product", method, rows and columns, then a line for each cell: row, column, and both bounds as hexadecimal patterns.
// A refusal is printed as "refused", number, matrix, row and column. Proved: the text is that of specs/Printed for the bytes that were
// read (`printed`), and over a reader and a writer whose bytes are known it is that for the whole input (`print`).
#![tactic(auto)]

ghost use Rattle.std.specs.Prelude.{◌≡◌, ◌++◌, ◌≤◌, ◌<◌, length, take, drop, IfOk, OnErr, IfSome};
ghost use Rattle.std.specs.Io.KnownBytes.{Consumes, IsAtEnd};
ghost use Rattle.print_product.specs.Streams.{TakesSome, Writes};
ghost use Rattle.print_product.specs.Printed.{sheets_text, printed_of};
ghost use Rattle.print_product.specs.Put.{Put};

mod input;
mod lines;
mod put;

use lines::Product;
use refusals::sizes::MOST_CELLS;
use sheets::cut::first_length;
use std::io;
use std::io::{ErrorKind, Read, Write};

// 1 + 16,400 + 16,401: a digit, the longest sheet A, and a sheet B that is one byte too long. Later bytes change nothing (proofs/Cuts).
const INPUT: usize = 32802;

// The length of the longest text: a first line of 16 bytes, and 24 bytes for each of 1,024 cells.
const TEXT: usize = 24592;

// Writes the text for an input to the front of out and returns its length.
#[tactic(auto, using(crate::proofs::InputLaws::digit_small))]
fn printed(input: &[u8], out: &mut [u8]) -> usize
    requires { 24592 ≤ length out.old }
    ensures size { result ≡ length (printed_of input.now) }
    ensures left { out.new ≡ printed_of input.now ++ drop (length (printed_of input.now)) out.old }
{
    let start = input.len().min(1);
    sheets_text(input::method(input), &input[start..], out)
}

// The same for a method and the bytes of both sheets, by the sheet job's reader and product.
fn sheets_text(method: u8, s: &[u8], out: &mut [u8]) -> usize
    requires { (method < 10) × (24592 ≤ length out.old) }
    ensures { Put (sheets_text method s.now) out.old result out.new }
{
    let mut lowers = [0u32; MOST_CELLS];
    let mut uppers = [0u32; MOST_CELLS];
    let (a, b) = s.split_at(first_length(s));
    match job::multiply_sheets(u32::from(method), a, b, &mut lowers, &mut uppers) {
        Ok(sizes) => {
            let product = Product {
                method,
                sizes,
                lowers: &lowers,
                uppers: &uppers,
            };
            lines::product_text(out, &product)
        }
        Err(refusal) => lines::refused_line(out, refusal),
    }
}

// Reads until buf is full or the input ends, and returns how many bytes were put at the start of buf: the first of the input, all of it where buf is
// not full. A read that fails ends it; some first bytes of the input were taken then. (Of that std's `read_exact` says nothing. No `for`:
// how much comes next is known only when it is read.)
fn read_full<R: Read>(input: &mut R, buf: &mut [u8]) -> io::Result<usize>
    ensures bound { IfOk result (λ n. n ≤ length buf.new) }
    ensures bytes { IfOk result (λ n. Consumes (R.remaining input.old) (R.remaining input.new) (take n buf.new)) }
    ensures end { IfOk result (λ n. n < length buf.new → IsAtEnd (R.remaining input.new)) }
    ensures failed { OnErr result (TakesSome (R.remaining input.old) (R.remaining input.new)) }
{
    let mut done = 0;
    while done < buf.len() {
        let n = input.read(&mut buf[done..])?;
        if n == 0 {
            return Ok(done);
        }
        done += n;
    }
    Ok(done)
}

// Writes all of text. A write that fails ends it; a front part of text was written then. (Of that std's `write_all` says nothing. No `for` here either.)
fn write_full<W: Write>(output: &mut W, text: &[u8]) -> io::Result<()>
    ensures { Writes (W.contents output.old) (W.contents output.new) result text.now }
{
    let mut rest = text;
    while !rest.is_empty() {
        let n = output.write(rest)?;
        if n == 0 {
            return Err(ErrorKind::WriteZero.into());
        }
        rest = &rest[n..];
    }
    Ok(())
}

// Reads the input and writes the text for the whole of it; bytes behind the first 32,802 are not read. A read that fails ends it before anything is written,
// and a write that fails after a front part of the text.
fn print<R: Read, W: Write>(input: &mut R, output: &mut W) -> io::Result<()>
    ensures { IfSome (R.remaining input.old) (λ s. Writes (W.contents output.old) (W.contents output.new) result (printed_of s)) }
{
    let mut bytes = [0u8; INPUT];
    let n = read_full(input, &mut bytes)?;
    let mut text = [0u8; TEXT];
    let k = printed(&bytes[..n], &mut text);
    write_full(output, &text[..k])
}

fn main(rt: HostRuntime) -> io::Result<()> {
    print(&mut rt.stdin(), &mut rt.stdout())
}
