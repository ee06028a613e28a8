/// What a journal may be asked for: its records, one record more, a rewrite, or nothing.
#[derive(Clone, Copy, Debug, PartialEq, Eq)]
pub enum State {
    Reading,
    Open,
    Filling,
    Broken,
}
