// What a run is asked for. It goes by value from the entry to every step of a pass. `wanted` says whether Q is: its
// slice is lent all the same, as C lends it, and left as it was.
#[derive(Clone, Copy, Debug, PartialEq)]
pub struct Setting {
    pub order: usize,
    pub wanted: bool,
    pub tolerance: f64,
}
