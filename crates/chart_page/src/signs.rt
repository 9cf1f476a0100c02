//! The colours and signs of a picture.

use crate::numbers::cut_at;

/// What stands before everything else but the size: the classes of texts and shapes, and the signs.
pub const STYLE: &[u8] = b"<style>\
text{font:11px ui-monospace,Menlo,Consolas,'DejaVu Sans Mono',monospace;fill:#24292f;paint-order:stroke;stroke:#fff;stroke-width:2px;\
stroke-opacity:.8;stroke-linejoin:round}.many text{font-size:10px}\
.paper{fill:#fff}text.name{font-weight:bold;font-size:13px}.many text.name{font-size:11px}.end{font-weight:bold}.bad{font-weight:bold;fill:#cf222e}\
text.small{font-size:9px;fill:#57606a}.many text.small{font-size:9px}\
.lane{stroke:#d0d7de;stroke-dasharray:2 4}.gap{stroke:#8c959f;stroke-dasharray:1 3}.cycle{fill:#f6f8fa;stroke:#afb8c1}.quiet{fill:#fff;stroke:#d0d7de}\
.say{font-weight:bold}.done{fill:#0a5c2b}.mail{fill:#0550ae}.does{fill:#6639ba}.failed{fill:#bc4c00;font-weight:bold}\
.drops{fill:#cf222e;font-weight:bold}.rule{fill:#57606a}\
.arrow{fill:none;stroke-opacity:.7}.head{stroke:none;fill-opacity:.8}.stub{stroke:#0969da;stroke-opacity:.65}\
.lost{fill:#fff;stroke:#0969da}.bar{stroke:#24292f;stroke-width:3}\
.c0{stroke:#0969da;fill:#0969da}.c1{stroke:#cf222e;fill:#cf222e}.c2{stroke:#1a7f37;fill:#1a7f37}.c3{stroke:#8250df;fill:#8250df}\
.c4{stroke:#bc4c00;fill:#bc4c00}.c5{stroke:#0e7c86;fill:#0e7c86}.c6{stroke:#bf3989;fill:#bf3989}.c7{stroke:#7d6608;fill:#7d6608}\
.c8{stroke:#3b5bdb;fill:#3b5bdb}.c9{stroke:#5c4033;fill:#5c4033}.c10{stroke:#2b7a0b;fill:#2b7a0b}.c11{stroke:#6b7280;fill:#6b7280}\
</style>\n";

pub const SIGNS: &[u8] = b"<defs>\
<path id=\"say\" d=\"M0 -8h8v6h-4l-3 3v-3h-1z\" fill=\"#57606a\"/>\
<path id=\"took\" d=\"M8 -8v8l-7 -4z\" fill=\"#0550ae\"/>\
<path id=\"sends\" d=\"M1 -8v8l7 -4z\" fill=\"#0550ae\"/>\
<path id=\"does\" d=\"M4 -8a4 4 0 1 0 .1 0z\" fill=\"none\" stroke=\"#6639ba\" stroke-width=\"1.5\"/>\
<path id=\"done\" d=\"M0 -4l3 3l5 -7\" fill=\"none\" stroke=\"#0a5c2b\" stroke-width=\"2\"/>\
<path id=\"failed\" d=\"M0 -8l8 8M8 -8l-8 8\" fill=\"none\" stroke=\"#bc4c00\" stroke-width=\"2\"/>\
<path id=\"drops\" d=\"M0 -9h8v9h-8zM3 -8v4h2v-4zM3 -3v2h2v-2z\" fill=\"#cf222e\" fill-rule=\"evenodd\"/>\
<path id=\"spent\" d=\"M0 -9h8v9h-8z\" fill=\"#cf222e\"/>\
<path id=\"stops\" d=\"M0 -8h8v8h-8z\" fill=\"#24292f\"/>\
</defs>\n";

/// How a line is shown: what it is called, its class, and its sign.
#[derive(Clone, Copy)]
pub struct Style {
    pub kind: &'static [u8],
    pub class: &'static [u8],
    pub sign: &'static [u8],
}

/// Of each first word the class of its lines. They have the sign of that name.
const KINDS: [(&[u8], &[u8]); 9] = [
    (b"say", b"say"),
    (b"took", b"mail"),
    (b"sends", b"mail"),
    (b"does", b"does"),
    (b"done", b"done"),
    (b"failed", b"failed"),
    (b"drops", b"drops"),
    (b"spent", b"drops"),
    (b"stops", b"say"),
];

/// The look of a line by its first word.
pub fn look_of(text: &[u8]) -> Style {
    let (word, _) = cut_at(b' ', text);
    for (kind, class) in &KINDS {
        let (kind, class) = (*kind, *class);
        if kind == word {
            return Style {
                kind,
                class,
                sign: kind,
            };
        }
    }
    Style {
        kind: b"rule",
        class: b"rule",
        sign: b"",
    }
}

/// Whether an agent ended otherwise than in peace.
pub fn is_bad_end(end: &[u8]) -> bool {
    end.starts_with(b"cycles ") || end.starts_with(b"budget ")
}
