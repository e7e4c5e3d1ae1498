/// Where the first STATE line of a port stands.
#[derive(Clone, Copy, PartialEq, Eq)]
pub struct Mark {
    pub port: u8,
    pub line: u32,
}
