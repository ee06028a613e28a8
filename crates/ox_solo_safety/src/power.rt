/// Whether a node runs, stands still, or is gone for good with its disks.
#[derive(Clone, Copy, Debug, PartialEq, Eq)]
pub enum Power {
    Up,
    Down,
    Lost,
}
