// The four streams between two peers.

/// A link: the front asks on `front_in` and is answered on `front_out`; the back is asked on `back_out` and answers on `back_in`.
#[derive(Drop)]
pub struct Link<A, B, C, D> {
    /// What the front sends.
    pub front_in: A,
    /// What the front is answered.
    pub front_out: B,
    /// What the back answers.
    pub back_in: C,
    /// What the back is asked.
    pub back_out: D,
}
