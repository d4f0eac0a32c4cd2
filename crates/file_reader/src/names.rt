// A file's name on standard error, so that no byte of it is taken for anything else: a name may have a newline, which
// would begin a message of its own, or an escape sequence, which a terminal would obey.
ghost use Rattle.std.specs.Prelude.{◌≡◌, take};
ghost use Rattle.file_reader.specs.Escapes.{is_shown, escaped};

use std::fmt;

// Whether a byte is a printable character of ASCII.
fn is_shown(b: u8) -> bool
    ensures { result ≡ is_shown b }
{
    if b < b' ' {
        return false;
    }
    b <= b'~'
}

// What is written for a byte of a name: the first bytes of four.
#[derive(Drop)]
struct Shown {
    bytes: [u8; 4],
    len: usize,
}

fn escape(b: u8) -> Shown
    ensures { take result.len result.bytes ≡ escaped b }
{
    if b == b'\\' {
        return Shown {
            bytes: [b'\\', b'\\', 0, 0],
            len: 2,
        };
    }
    if b == b'\n' {
        return Shown {
            bytes: [b'\\', b'n', 0, 0],
            len: 2,
        };
    }
    if is_shown(b) {
        return Shown {
            bytes: [b, 0, 0, 0],
            len: 1,
        };
    }
    Shown {
        bytes: [b'\\', b'x', text::digit(b / 16), text::digit(b % 16)],
        len: 4,
    }
}

// A name of bytes, as a message shows it: all characters of ASCII.
#[derive(Clone, Copy)]
pub(crate) struct Name<'a>(pub(crate) &'a [u8]);

impl fmt::Display for Name<'_> {
    fn fmt<W: fmt::Write>(&self, f: &mut fmt::Formatter<W>) -> fmt::Result {
        for b in self.0 {
            let shown = escape(*b);
            for c in text::cut(&shown.bytes, shown.len) {
                f.write_char(char::from(*c))?;
            }
        }
        Ok(())
    }
}
