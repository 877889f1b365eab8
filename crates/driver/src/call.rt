//! Reads a call of a command function from its line and its bytes.
use crate::devices::{Input, Output};
use crate::words::{Words, take};
use anyhow::{Context, Result, bail};
use dap_frame::FrameLimits;
use dapnorm::{Job, Limits, Mode, Printed};
use std::str;

/// The function that is called.
#[derive(Clone, Copy)]
pub enum Function {
    Compact,
    Record,
    Show,
    Normalise,
    Check,
    Compare,
    /// `compare`, and whether the renaming that it returns maps the first recording to the second.
    Carries,
    /// `normalise_bytes`.
    NormalText,
    /// `normalise_bytes` of both inputs, and whether the results are the same.
    SameTexts,
    /// `run_stream` with this job.
    RunStream(Job<'static>),
    /// `run_compare` for a verdict without tables, and otherwise an engine, whose answer is
    /// printed.
    RunPair(Printed),
}

/// The name tables that are passed to the command function.
#[derive(Clone, Copy)]
pub enum Handed {
    /// No tables: the function creates its own.
    Own,
    /// Tables that search an id linearly.
    Plain,
    /// Tables that search an id by its hash.
    Indexed,
}

/// A call of a command function.
#[derive(Clone, Copy)]
pub struct Call<'a> {
    pub function: Function,
    pub handed: Handed,
    pub mode: Mode,
    /// Whether each request requires a response.
    pub complete: bool,
    pub limits: Limits,
    pub output: Output,
    /// The number of the allocation that fails, counted from 1, or 0 for no failure.
    pub turn: u16,
    pub a: Input<'a>,
    pub b: Input<'a>,
}

fn function_of(word: &str, complete: bool, mode: Mode) -> Result<Function> {
    let per_stop = mode == Mode::PerStop;
    Ok(match word {
        "compact" => Function::Compact,
        "record" => Function::Record,
        "show" => Function::Show,
        "normalise" => Function::Normalise,
        "check" => Function::Check,
        "compare" => Function::Compare,
        "carries" => Function::Carries,
        "normalise-bytes" => Function::NormalText,
        "same" => Function::SameTexts,
        "run-compact" => Function::RunStream(Job::Compact),
        "run-record" => Function::RunStream(Job::Record),
        "run-show" => Function::RunStream(Job::Show),
        "run-normalise" => Function::RunStream(Job::Normalise { per_stop }),
        "run-check" => Function::RunStream(Job::Check { complete, per_stop }),
        "run-compare" => Function::RunPair(Printed::Verdict),
        "run-diff" => Function::RunPair(Printed::FirstDifference),
        "run-diff-all" => Function::RunPair(Printed::AllDifferences),
        _ => bail!("no function has this name: {word}"),
    })
}

fn handed_of(word: &str) -> Result<Handed> {
    Ok(match word {
        "own" => Handed::Own,
        "plain" => Handed::Plain,
        "indexed" => Handed::Indexed,
        _ => bail!("no tables have this name: {word}"),
    })
}

fn mode_of(word: &str) -> Result<Mode> {
    Ok(match word {
        "whole" => Mode::Whole,
        "per-stop" => Mode::PerStop,
        _ => bail!("no mode has this name: {word}"),
    })
}

fn limits_of(words: &mut Words<'_>) -> Result<Limits> {
    Ok(Limits {
        frame: FrameLimits {
            header: words.count()?,
            content: words.count()?,
        },
        ids: words.count()?,
        input: words.number()?,
    })
}

fn output_of(words: &mut Words<'_>) -> Result<Output> {
    Ok(Output {
        room: words.count()?,
        piece: words.count()?,
        fails_at: words.count()?,
        takes_nothing: words.flag()?,
        fails_to_flush: words.flag()?,
    })
}

/// Reads the description of an input. The bytes of its two texts follow the line.
fn input_of<'a>(words: &mut Words<'_>, bytes: &mut &'a [u8]) -> Result<Input<'a>> {
    Ok(Input {
        text: take(bytes, words.count()?)?,
        then: take(bytes, words.count()?)?,
        piece: words.count()?,
        fails_at: words.number()?,
    })
}

/// Reads the words of a call, and its bytes.
fn call_of<'a>(words: &mut Words<'_>, bytes: &mut &'a [u8]) -> Result<Call<'a>> {
    let name = words.word();
    let handed = handed_of(words.word())?;
    let mode = mode_of(words.word())?;
    let complete = words.flag()?;
    Ok(Call {
        function: function_of(name, complete, mode)?,
        handed,
        mode,
        complete,
        limits: limits_of(words)?,
        output: output_of(words)?,
        turn: u16::try_from(words.number()?).context("a turn is too large")?,
        a: input_of(words, bytes)?,
        b: input_of(words, bytes)?,
    })
}

/// Reads the first call of the bytes, and returns it with the bytes after it.
pub fn read_call(bytes: &[u8]) -> Result<(Call<'_>, &[u8])> {
    let end = bytes
        .iter()
        .position(|byte| *byte == b'\n')
        .context("a line has no end")?;
    let mut rest = bytes;
    let line = str::from_utf8(take(&mut rest, end)?).context("a line is not UTF-8")?;
    take(&mut rest, 1)?;
    let call = call_of(&mut Words::of(line), &mut rest)?;
    Ok((call, rest))
}
