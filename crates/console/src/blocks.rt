// The replies to the lines of a block.
ghost use Rattle.std.specs.Prelude.{◌≡◌, ℕ, List, [], ◌∷◌, ◌++◌, length, take, IfOk, string_bytes, OnOk, ◌==◌};
ghost use Rattle.answers.specs.Answers.{tables};
ghost use Rattle.input.specs.Lines.{finished, unfinished, last_line};
ghost use Rattle.input.specs.Filling.{kept};
ghost use Rattle.console.specs.Replied.{Replied};

use answers::{Book, answer_line};
use input::{Held, fill};
use std::alloc::{AllocError, Global};

// Adds a reply and its end of line.
fn add_line(text: &mut String, reply: &str) -> Result<(), AllocError>
    ensures { OnOk result (string_bytes text.new ≡ (string_bytes text.old ++ reply.now) ++ 10 ∷ []) }
{
    text.push_str(reply)?;
    text.push_str("\n")?;
    Ok(())
}

// Adds the reply to the held line.
fn put_reply(
    heap: Global,
    book: &mut Book,
    held: &Held,
    text: &mut String,
) -> Result<(), AllocError>
    ensures { (line : List ℕ) → kept held.now ≡ take 32 line → OnOk result ((more : List ℕ) × (string_bytes text.new ≡ string_bytes text.old ++ more) × Replied (line ∷ []) (tables book.old) more (tables book.new)) }
{
    let reply = answer_line(heap, book, held.bytes())?;
    add_line(text, reply.as_str())?;
    Ok(())
}

// The replies to the lines that end in the block. What it begins of the next line is held.
pub fn answer_block(
    heap: Global,
    book: &mut Book,
    held: &mut Held,
    block: &[u8],
) -> Result<String, AllocError>
    ensures { (line : List ℕ) → kept held.old ≡ take 32 line → IfOk result (λ text. Replied (finished line block.now) (tables book.old) (string_bytes text) (tables book.new) × (kept held.new ≡ take 32 (unfinished line block.now))) }
{
    let mut text = String::new(heap);
    let mut rest = block;
    while let Some(used) = fill(held, rest) {
        put_reply(heap, book, held, &mut text)?;
        held.clear();
        rest = &rest[used..];
    }
    Ok(text)
}

// Whether no byte of a line has come.
fn is_unbegun(held: &Held) -> bool
    ensures { result ≡ (length (kept held.now) == 0) }
{
    held.bytes().is_empty()
}

// The reply to the line that ends with the input: none where no byte is left.
pub fn answer_rest(heap: Global, book: &mut Book, held: &Held) -> Result<String, AllocError>
    ensures { (line : List ℕ) → kept held.now ≡ take 32 line → IfOk result (λ text. Replied (last_line line) (tables book.old) (string_bytes text) (tables book.new)) }
{
    let mut text = String::new(heap);
    if is_unbegun(held) {
        return Ok(text);
    }
    put_reply(heap, book, held, &mut text)?;
    Ok(text)
}
