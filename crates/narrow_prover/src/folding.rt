// How tables lie in a list while they are folded.
ghost use Rattle.std.specs.Prelude.{◌+◌, ◌≤◌};
ghost use Rattle.refusals.specs.Limits.{max_degree};

// `count` tables of `places` places each, one after the other. What a round still sees of a table is a lower half and an upper half right above it,
// `half` places each. How long a list must be for them is said where one is lent.
#[derive(Clone, Copy)]
pub(crate) struct Folding {
    pub count: usize,
    pub places: usize,
    pub half: usize,
    pub ghost few: { count ≤ max_degree },
    pub ghost both_halves: { half + half ≤ places },
}
