use ox_wire::Image;

/// Whether a step may be cut, and inside which call of the disks, counted from 1.
#[derive(Clone, Copy, Debug, PartialEq, Eq)]
pub enum Knife {
    Free,
    At { call: u64, image: Image },
}
