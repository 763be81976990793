// The memory of a search that ended.
ghost use Rattle.std.specs.Prelude.{◌≡◌};
ghost use Rattle.search.specs.Marks.{takens};

// Each bridge's label by its number, its way in, and its taken mark.
#[derive(Clone, Copy)]
pub struct Ended<'a> {
    pub labels: &'a [u16],
    pub ways: &'a [u16],
    pub taken: &'a [u16],
}

// Whether a bridge is marked: none past the memory is.
// Marks are numbers, not bools, as all working memory that the caller lends is.
pub fn is_marked(marks: &[u16], bridge: u16) -> bool
    ensures { result ≡ takens marks.now bridge }
{
    marks
        .get(usize::from(bridge))
        .is_some_and(|mark| *mark != 0)
}
