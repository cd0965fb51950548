// The concealment program: records from standard input, and for each its number, kind, sample count, samples and new record.
// What goes wrong it says in one line on standard error.

#![tactic(auto)]

mod streams;

ghost use Rattle.std.specs.Prelude.{◌-◌, ◌/◌, ◌^◌, ◌<◌, ◌≤◌, length, take, IfSome, IfOk, OnOk};
ghost use Rattle.std.specs.Io.KnownBytes.{Appends, Consumes, IsAtEnd};
ghost use Rattle.record.specs.Record.{record_length};
ghost use Rattle.answer_head.specs.Head.{answer_tail};
ghost use Rattle.answer.specs.Answer.{answers};
ghost use Rattle.answer_laws.specs.Program.{buffer, head_bytes, whole_step};
ghost use Rattle.conceal.specs.Turn.{IsTurn};

use anyhow::{Context, Result};
use std::io::{Read, Write};
use std::process::ExitCode;
use streams::Waited;

// Reads a record, or says why it cannot.
fn filled<R: Read>(input: &mut R, rec: &mut [u8]) -> Result<usize>
    ensures bound { IfOk result (λ n. n ≤ length rec.new) }
    ensures bytes { IfOk result (λ n. Consumes (R.remaining input.old) (R.remaining input.new) (take n rec.new)) }
    ensures end { IfOk result (λ n. n < length rec.old → IsAtEnd (R.remaining input.new)) }
{
    streams::fill(input, rec).context("input cannot be read")
}

// Writes, or says why the output takes no more. Apart from `filled`: another trait, other words, another contract.
fn written<W: Write>(output: &mut W, bytes: &[u8]) -> Result<()>
    ensures { OnOk result (Appends (W.contents output.old) (W.contents output.new) bytes.now) }
{
    streams::write_all(output, bytes).context("output not written")
}

// Goes on where standard error takes nothing.
fn say_cut(rt: &impl Eprint, whole: u64) {
    eprintln!(rt; "conceal: a record cut short after {whole} whole ones").ok();
}

// What is left past the last whole record, n bytes.
fn answer_rest<W: Write>(rt: &impl Eprint, output: &mut W, n: usize, whole: u64) -> Result<()>
    ensures { OnOk result (Appends (W.contents output.old) (W.contents output.new)
        (head_bytes (answer_tail n buffer))) }
{
    // Room for the longest head, here and in `answer_whole`: there is no heap.
    let mut head = [0u8; answer_head::HEAD_BYTES];
    let cut = answer_head::answer_tail(n, &mut head).unwrap();
    if cut > 0 {
        say_cut(rt, whole);
        written(output, &head[..cut])?;
    }
    Ok(())
}

fn answer_whole<W: Write>(output: &mut W, rec: &mut [u8; record::BYTES]) -> Result<()>
    ensures { OnOk result (Appends (W.contents output.old) (W.contents output.new) (whole_step rec.old)) }
{
    let mut head = [0u8; answer_head::HEAD_BYTES];
    let n = answer::answer_record(rec, &mut head).unwrap();
    written(output, &head[..n])?;
    written(output, rec)
}

// Reads and answers one record; false where there is no more to answer. A bool: whether there is more is all that its
// caller asks.
fn conceal_one<R: Read, W: Write>(
    rt: &impl Eprint,
    input: &mut R,
    output: &mut W,
    whole: u64,
) -> Result<bool>
    ensures { IfOk result (λ more. IfSome (R.remaining input.old) (λ xs.
        IsTurn xs (R.remaining input.new) (W.contents output.old) (W.contents output.new) more)) }
{
    let mut rec = [0u8; record::BYTES];
    let got = filled(input, &mut rec)?;
    if got < record::BYTES {
        answer_rest(rt, output, got, whole)?;
        return Ok(false);
    }
    answer_whole(output, &mut rec)?;
    Ok(true)
}

// Where the input's bytes are known, what is written is exactly the answers to them.
// A proved loop has to end, and nothing says that the input does. So it counts up to a number that no run reaches.
fn conceal_all<R: Read, W: Write>(rt: &impl Eprint, input: &mut R, output: &mut W) -> Result<()>
    ensures { OnOk result (IfSome (R.remaining input.old) (λ xs. length xs / record_length < 2 ^ 64 - 1
        → Appends (W.contents output.old) (W.contents output.new) (answers xs))) }
{
    for whole in 0..u64::MAX {
        if !conceal_one(rt, input, output, whole)? {
            break;
        }
    }
    Ok(())
}

fn main(rt: HostRuntime) -> ExitCode {
    let mut input = Waited {
        clock: &rt,
        stream: rt.stdin(),
    };
    let mut output = Waited {
        clock: &rt,
        stream: rt.stdout(),
    };
    match conceal_all(&rt, &mut input, &mut output) {
        Ok(()) => ExitCode::SUCCESS,
        Err(error) => {
            eprintln!(rt; "conceal: {error:#}").ok();
            ExitCode::FAILURE
        }
    }
}
