// What a search that came to the end bridge tells: the route's width and how many lines it has. Their numbers lie in memory that the
// caller lends, so the length stands beside it.
#[derive(Clone, Copy)]
pub struct Found<G> {
    pub width: G,
    pub length: usize,
}
