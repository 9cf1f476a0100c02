//! What a line of a report is.

ghost use Rattle.std.specs.Prelude.{◌≡◌};
ghost use Rattle.chart_page.specs.Form as spec;

/// A line by its beginning.
#[derive(Clone, Copy)]
pub enum LineKind {
    Head,
    Options,
    AgentSection,
    Numbered,
    End,
    World,
    Fact,
    Mail,
    Letter,
    Count,
    Empty,
    Other,
}

/// A line that begins with a word and a blank.
fn kind_by_word(line: &[u8]) -> LineKind
    ensures { result ≡ spec.kind_by_word line.now }
{
    if line.starts_with(b"agent ") {
        LineKind::AgentSection
    } else if line.starts_with(b"end ") {
        LineKind::End
    } else if line.starts_with(b"fact ") {
        LineKind::Fact
    } else if line.starts_with(b"for ") {
        LineKind::Letter
    } else if line.starts_with(b"schedule ") {
        LineKind::Count
    } else if line.starts_with(b"cycles ") {
        LineKind::Options
    } else {
        LineKind::Other
    }
}

fn is_head(line: &[u8]) -> bool
    ensures { result ≡ spec.is_head line.now }
{
    line == b"jasonrun 1".as_slice() || line == b"jasonrun 2".as_slice()
}

/// What a line is, by its beginning alone. Whether it may stand where it does is not asked here.
pub fn kind_of(line: &[u8]) -> LineKind
    ensures { result ≡ spec.kind_of line.now }
{
    let Some(first) = line.first() else {
        return LineKind::Empty;
    };
    if *first >= b'0' && *first <= b'9' {
        LineKind::Numbered
    } else if line == b"world".as_slice() {
        LineKind::World
    } else if line == b"mail".as_slice() {
        LineKind::Mail
    } else if is_head(line) {
        LineKind::Head
    } else {
        kind_by_word(line)
    }
}
