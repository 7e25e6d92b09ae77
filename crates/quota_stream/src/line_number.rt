/// The number of a line: the index of its stream, from 0, and the number of the line in it, from 1.
#[derive(Clone, Copy, Debug, PartialEq, Eq)]
pub struct LineNumber {
    pub stream: u64,
    pub line: u32,
}
