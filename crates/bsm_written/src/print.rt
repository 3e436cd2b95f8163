// Printing bytes in hexadecimal.
use std::fmt;
use std::fmt::Display;

// Bytes in hexadecimal, with a space before them; nothing for none.
#[derive(Clone, Copy)]
pub(crate) struct Hex<'a>(pub(crate) &'a [u8]);

impl<'a> Display for Hex<'a> {
    fn fmt<W: fmt::Write>(&self, f: &mut fmt::Formatter<W>) -> fmt::Result {
        if self.0.is_empty() {
            return Ok(());
        }
        write!(f, " ")?;
        for byte in self.0 {
            write!(f, "{byte:02X}")?;
        }
        Ok(())
    }
}

// Bytes parted into fields of these widths; the bytes behind them stand together.
#[derive(Clone, Copy)]
struct Parted<'a> {
    bytes: &'a [u8],
    widths: &'a [u8],
}

impl<'a> Display for Parted<'a> {
    fn fmt<W: fmt::Write>(&self, f: &mut fmt::Formatter<W>) -> fmt::Result {
        let mut left = self.bytes;
        for width in self.widths {
            let (field, behind) = left.split_at((*width as usize).min(left.len()));
            write!(f, "{}", Hex(field))?;
            left = behind;
        }
        write!(f, "{}", Hex(left))
    }
}

// How a token or an item is printed: its name, the widths of the fields in front, and how many bytes its trailer has. What stands between
// them is a text, bytes, an address or a body.
#[derive(Clone, Copy)]
pub(crate) struct Layout<'a> {
    pub(crate) name: &'a str,
    pub(crate) widths: &'a [u8],
    pub(crate) trailer: usize,
}

// The bytes of a token or an item that was written, parted into its fields.
#[derive(Clone, Copy)]
pub(crate) struct Written<'a> {
    pub(crate) layout: Layout<'a>,
    pub(crate) bytes: &'a [u8],
}

impl<'a> Display for Written<'a> {
    fn fmt<W: fmt::Write>(&self, f: &mut fmt::Formatter<W>) -> fmt::Result {
        let Layout {
            name,
            widths,
            trailer,
        } = self.layout;
        let n = self.bytes.len().saturating_sub(trailer);
        let (bytes, trailer) = self.bytes.split_at(n);
        let fields = Parted { bytes, widths };
        let trailer = Parted {
            bytes: trailer,
            widths: &[1, 2, 4],
        };
        write!(f, "{name}\n  wrote{fields}{trailer}")
    }
}
