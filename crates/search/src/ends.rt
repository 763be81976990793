// The two ends of a route that is asked for or given.
#[derive(Clone, Copy)]
pub struct Ends {
    pub start: u16,
    pub end: u16,
}
