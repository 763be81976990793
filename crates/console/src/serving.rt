// A whole script, from what reads to what writes.
ghost use Rattle.std.specs.Prelude.{◌≡◌, []};
ghost use Rattle.answers.specs.Answers.{tables};
ghost use Rattle.answers.specs.Scripts.{new_tables};
ghost use Rattle.input.specs.Filling.{kept};
ghost use Rattle.console.specs.Sessions.{EverySession};

use crate::blocks::{answer_block, answer_rest};
use answers::Book;
use input::Held;
use std::alloc::Global;
use std::io::{Read, Write};

// An empty book, and no byte of a line.
fn start() -> (Book, Held)
    ensures book { tables result.0 ≡ new_tables }
    ensures held { kept result.1 ≡ [] }
    ensures sessions { EverySession }
{
    let book = Book::new();
    let held = Held::new();
    (book, held)
}

// Reads a script to its end and writes the reply to each line, on a book of its own. No contract can say what is read and
// written; this one says that block by block the replies come to those of the plain book, however the script is cut.
// However long a line is, no more than a block and the line's first bytes are kept of it.
pub fn serve<R: Read, W: Write>(heap: Global, input: &mut R, out: &mut W) -> anyhow::Result<()>
    ensures { EverySession }
{
    let (mut book, mut held) = start();
    let mut block = [0u8; 4096];
    for _ in 0..u64::MAX {
        let count = input.read(&mut block)?;
        if count == 0 {
            break;
        }
        let text = answer_block(heap, &mut book, &mut held, &block[0..count])?;
        out.write_all(text.as_bytes())?;
        out.flush()?;
    }
    let text = answer_rest(heap, &mut book, &held)?;
    out.write_all(text.as_bytes())?;
    out.flush()?;
    Ok(())
}
