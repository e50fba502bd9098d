//! A program that answers what it reads.
ghost use Rattle.std.specs.Prelude.{◌≡◌, List, ℕ, IfOk, IfSome};
ghost use Rattle.std.specs.Io.KnownBytes.{Appends};
ghost use Rattle.programs.specs.Explaining.{told};
ghost use Rattle.programs.specs.Serving.{Writes};

use crate::explaining::{Explained, Placed};
use std::alloc::Global;
use std::io::{self, Read, Write};
use std::process::ExitCode;

// How many bytes of an answer are written at once, at most.
const PIECE: usize = 1024;

/// Answers all that `input` gives: the text goes to `output`; what is wrong goes to `errors`, as a line, and the status says so.
/// Where reading or writing fails, nothing is said of what was written till then.
pub fn serve<
    T: Placed + Drop,
    F: FnOnce(Global, &[u8]) -> Result<String, T>,
    I: Read,
    O: Write,
    E: Write,
>(heap: Global, answer: F, input: &mut I, output: &mut O, errors: &mut E) -> io::Result<ExitCode>
    requires { F.IsAlwaysCallable answer }
    ensures { IfOk result (λ status. (all : _) × (r : _) × IfSome (I.remaining input.old) (λ bytes. all.now ≡ bytes) × F.post answer heap all r
        × Writes (λ e. told all.now (T.offset e) (T.Display.output e)) r (O.contents output.old) (O.contents output.new) (E.contents errors.old) (E.contents errors.new) status) }
{
    let mut bytes = Vec::new(heap);
    input.read_to_end(&mut bytes)?;
    let input = bytes.as_slice();
    write_answer(heap, input, answer(heap, input), output, errors)
}

// Writes the answer to this input.
fn write_answer<T: Placed + Drop, O: Write, E: Write>(
    heap: Global,
    input: &[u8],
    answer: Result<String, T>,
    output: &mut O,
    errors: &mut E,
) -> io::Result<ExitCode>
    ensures { IfOk result (Writes (λ e. told input.now (T.offset e) (T.Display.output e)) answer (O.contents output.old) (O.contents output.new) (E.contents errors.old) (E.contents errors.new)) }
{
    match answer {
        Ok(text) => {
            write_pieces(text.as_bytes(), output)?;
            Ok(ExitCode::SUCCESS)
        }
        Err(trouble) => {
            let explained = Explained { input, trouble };
            // One write for the whole line, so that no other program's line gets between; where there is no memory for it, in parts.
            match format!(in heap; "{explained}\n") {
                Ok(line) => errors.write_all(line.as_bytes())?,
                Err(_) => writeln!(errors, "{explained}")?,
            }
            Ok(ExitCode::FAILURE)
        }
    }
}

// Writes the bytes in pieces of at most PIECE, which every kind of output takes: a socket of packets refuses long ones.
fn write_pieces<O: Write>(bytes: &[u8], output: &mut O) -> io::Result<()>
    ensures { IfOk result (λ _. Appends (O.contents output.old) (O.contents output.new) bytes.now) }
{
    for piece in bytes.chunks(PIECE) {
        output.write_all(piece)?;
    }
    Ok(())
}
