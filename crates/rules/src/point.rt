/// A point of a row: the place where it stands, and what it carries from the axes below.
#[derive(Clone, Copy, PartialEq, Eq, Debug)]
pub struct Point {
    pub place: u32,
    pub carried: u64,
}
