// Reads commands from standard input, one to a line, and answers each on standard output. The answers of a line are
// written out before the next line is waited for.
#![tactic(auto)]

use anyhow::anyhow;
use lines::answer::{Answer, Reason};
use session::{Session, respond_to};
use std::io;
use std::io::{BufRead, BufReader, BufWriter, Write};

// The line without its line feed.
fn content(line: &[u8]) -> &[u8] {
    line.strip_suffix(b"\n").unwrap_or(line)
}

// Writes answers out, one to a line.
fn write_answers(output: &mut impl Write, answers: &[Answer]) -> io::Result<()> {
    for answer in answers {
        writeln!(output, "{answer}")?;
    }
    output.flush()
}

fn main(rt: HostRuntime) -> anyhow::Result<()> {
    let heap = rt.alloc();
    let mut session = Session::new(heap).map_err(|_| anyhow!("out of memory"))?;
    let mut input = BufReader::new(heap, rt.stdin())?;
    let mut output = BufWriter::new(heap, rt.stdout())?;
    let mut line = Vec::new(heap);
    for number in 1..u64::MAX {
        line.clear();
        if input.read_until(b'\n', &mut line)? == 0 {
            break;
        }
        match respond_to(heap, &mut session, number, content(&line)) {
            // Most lines have no answer.
            Ok(answers) if answers.is_empty() => output.flush()?,
            Ok(answers) => write_answers(&mut output, &answers)?,
            Err(_) => {
                let reason = Reason::NoMemory;
                write_answers(
                    &mut output,
                    &[Answer::Error {
                        line: number,
                        reason,
                    }],
                )?;
            }
        }
    }
    Ok(())
}
