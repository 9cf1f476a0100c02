//! Texts in a picture.

ghost use Rattle.std.specs.Prelude.{◌≡◌};
ghost use Rattle.chart_page.specs.Escape as spec;
ghost use Rattle.kept_text.specs.Puts.{Puts};

use kept_text::kept::KeptText;

fn is_control(byte: u8) -> bool
    ensures { result ≡ spec.is_control byte }
{
    byte <= 31 || byte == 127
}

/// Puts what stands for a byte.
fn put_byte(out: &mut KeptText, byte: u8)
    ensures { Puts out.old out.new (spec.escaped byte) }
{
    match byte {
        b'<' => out.put(b"&lt;"),
        b'>' => out.put(b"&gt;"),
        b'&' => out.put(b"&amp;"),
        b'"' => out.put(b"&quot;"),
        _ if is_control(byte) => out.put(b"?"),
        _ => out.put(&[byte]),
    }
}

/// Puts a text that came from the report.
pub fn put_escaped(out: &mut KeptText, text: &[u8])
    ensures { Puts out.old out.new (spec.escaped_text text.now) }
{
    for byte in text {
        put_byte(out, *byte);
    }
}

/// No sign of the picture's own stands in what was escaped.
pub fn escaped_is_plain()
    ensures { spec.EscapedIsPlain }
{}
