// Labels as numbers in working memory: 0 is none, a line's number stands for that line's grade,
// and any number above the line table's length for the start's label. Numbers, not Options, as the memory that callers lend is of u16.
ghost use Rattle.std.specs.Prelude.{◌≡◌};
ghost use Rattle.standing.specs.Standing.{line_at};
ghost use Rattle.search.specs.Labels.{label_of};
ghost use Rattle.theory.specs.Widest.{label_le};

use book::Line;
use grade::Grade;
use theory::labels::Label;

// The record of a line number: none for 0 and past the table.
pub fn record_at<G: Grade>(lines: &[Line<G>], number: u16) -> Option<Line<G>>
    ensures { result ≡ line_at lines.now number }
{
    let place = usize::from(number).checked_sub(1)?;
    lines.get(place).copied()
}

// The label that a number stands for. A pair of lines tells its own label in `turn`: one function for both would be given how to read a
// line, and be longer.
pub fn label_of<G: Grade>(lines: &[Line<G>], number: u16) -> Option<Label<G>>
    ensures { result ≡ label_of lines.now number }
{
    let place = usize::from(number).checked_sub(1)?;
    if place < lines.len() {
        Some(Label::Limited(lines[place].grade))
    } else {
        Some(Label::Unlimited)
    }
}

// Whether a label is at most another. No derived order: two grades may rank alike and still differ. The first label is looked at first, and not
// the pair of both: every search asks this at each step, and so the loop of `best` takes fewer instructions.
pub fn label_at_most<G: Grade>(a: Label<G>, b: Label<G>) -> bool
    ensures { result ≡ label_le G.le a b }
{
    match a {
        Label::Unlimited => match b {
            Label::Unlimited => true,
            Label::Limited(_) => false,
        },
        Label::Limited(x) => match b {
            Label::Unlimited => true,
            Label::Limited(y) => x.at_most(y),
        },
    }
}
