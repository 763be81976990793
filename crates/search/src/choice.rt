// A bridge with its label.
#[derive(Clone, Copy)]
pub struct Choice<L> {
    pub bridge: u16,
    pub label: L,
}
