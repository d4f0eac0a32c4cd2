// The commands of the certificate stream, and its header.

#[derive(Clone, Copy)]
pub enum Command {
    Header,
    Row,
    Entry,
    End,
    Unknown,
    EqualityRow,
    WideEntry,
}

// A command with its operands.
#[derive(Clone, Copy)]
pub enum Instruction {
    Header(u8, u16, i32, u16),
    Row(u8, u16),
    Entry(u8, i32),
    End,
    EqualityRow(u8, i32),
    WideEntry(u8, i32),
}

// What the first command states: the side (0 lower, 1 upper), D, and the bound p/q.
#[derive(Clone, Copy)]
pub struct Header {
    pub side: usize,
    pub scale: u16,
    pub p: i32,
    pub q: u16,
}
