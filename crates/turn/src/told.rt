// What turning tells: the width of the route, how many bridges it has, and how many lines are to be turned. The bridges and the lines lie
// in memory that the caller lends, so the two counts stand beside it.
#[derive(Clone, Copy)]
pub struct Turned {
    pub width: u32,
    pub bridges: usize,
    pub turned: usize,
}
