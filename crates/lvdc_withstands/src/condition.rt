#[derive(Debug)]
/// A condition of the form, in the order in which they are told. Whatever program runs, a script that meets all four masks.
#[derive(Clone, Copy, PartialEq, Eq)]
pub enum Condition {
    /// At each step each module has at most one wrong copy.
    Copies,
    /// Each line on memory names a duplex pair.
    Pairs,
    /// A place is damaged or stuck by one line at most, over both twins, and a reader of parity sees it.
    Places,
    /// A twin that dies is dead up to the last step, and no line names the other twin of its pair.
    Deaths,
}
