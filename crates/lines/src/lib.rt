// The lines that the programs write: the type of a text here, definitions in specs/. No code.
#![tactic(auto)]

// A text: the first `len` bytes. The longest, the line of the blocks, has 1,152 digits of bytes, three numbers of at
// most 20 digits and 23 other characters.
#[derive(Drop)]
pub struct Text {
    pub bytes: [u8; 1280],
    pub len: usize,
}
