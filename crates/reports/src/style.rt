//! What a page begins with, up to the verdict, and what it says right after it.

use crate::writer::{ReportForm, push_escaped};
use judge::Refusal;
use std::alloc::{AllocError, Allocator};

/// What a page begins with, up to its title.
const FRONT: &[u8] =
    b"<!DOCTYPE html>\n<html lang=en>\n<head><meta charset=utf-8><meta name=viewport content=width=device-width><title>";

/// How a page looks, after its title, and what comes before its name.
const STYLE: &[u8] =
    b" - pdp8 report</title><style>body{font:15px/1.45 sans-serif;margin:1.5em auto;max-width:70em;padding:0 1em;color:#111;background:#fff}p.name{font-size:1.6em;margin:0 0 .3em}h1{font-size:1.35em;border-left:.4em solid #888;padding-left:.5em}h1:has(+.yes){border-color:#2f8f4e;background:#e2f4e6}h1:has(+.no){border-color:#c00;background:#fde4e4}h1:has(+.open){border-color:#e0a100;background:#fff4d0}h2{font-size:1.1em;margin:1.6em 0 .4em}a{color:#035;text-decoration-color:#9bd}code,pre,table{font-family:monospace;font-size:13px}pre{background:#fdeaea;padding:.6em;white-space:pre-wrap}table{border-collapse:collapse;width:100%}td,th{text-align:left;vertical-align:top;padding:.1em .7em .1em 0;border-bottom:1px solid #eee}th{padding-top:.8em}td:first-child,.c{white-space:nowrap}i{font-style:normal;color:#888}tr:target,tr.bad{background:#fff3b0}svg{max-width:100%;height:auto;display:block}svg text{font:9px monospace;fill:#333}svg .n{font-size:14px}.u{fill:#f4f4f4}.m{fill:#3b6fb6;background:#3b6fb6}.e{fill:#111;background:#111}.v{fill:#e0a100;background:#e0a100}.o{fill:#b5b5b5;background:#b5b5b5}.r0{fill:#2f8f4e;background:#2f8f4e}.r1{fill:#8a4fbf;background:#8a4fbf}.r2{fill:#1f9aa8;background:#1f9aa8}.r3{fill:#b5583a;background:#b5583a}.r4{fill:#7a8b1f;background:#7a8b1f}.r5{fill:#c04f8f;background:#c04f8f}.h{fill:#fff;stroke:#c00;stroke-width:1.5}.s{fill:none;stroke:#000;stroke-width:1.5}.w{fill:#e0a100}.bad{stroke:#d00;stroke-width:2.5}.b{fill:#fff;stroke:#333}.l{stroke:#777;fill:none}.k{display:inline-block;width:.8em;height:.8em;margin:0 .3em 0 1em}@media print{body{font-size:11px;margin:0;max-width:none}table{font-size:9px}tr{break-inside:avoid}a{color:inherit;text-decoration:none}*{print-color-adjust:exact;-webkit-print-color-adjust:exact}}</style></head>\n<body>\n<p class=name>";

/// Adds what comes before the verdict in a form, of a program of this name: in a page its title, how it looks, the name once
/// more, and the tag of its heading.
pub(crate) fn push_head<A: Allocator>(
    page: &mut Vec<u8, A>,
    form: ReportForm,
    name: &[u8],
) -> Result<(), AllocError> {
    match form {
        ReportForm::Text => Ok(()),
        ReportForm::Page => {
            page.extend_from_slice(FRONT)?;
            push_escaped(page, name)?;
            page.extend_from_slice(STYLE)?;
            push_escaped(page, name)?;
            page.extend_from_slice(b"</p>\n<h1>")
        }
    }
}

/// What stands right after the verdict in a form: in a page, what a yes shows, or that a no shows nothing.
pub fn opening(form: ReportForm, verdict: &Result<(), Refusal>) -> &'static [u8] {
    match form {
        ReportForm::Text => b"",
        ReportForm::Page => match verdict {
            Ok(()) => b"</h1>\n<p class=yes>Proved: no run violates the declaration.",
            Err(_) => b"</h1>\n<p class=no>This certificate shows nothing.",
        },
    }
}

/// What stands right after the line of a search that is stuck: in a page, that nothing is shown.
pub fn stuck_opening(form: ReportForm) -> &'static [u8] {
    match form {
        ReportForm::Text => b"",
        ReportForm::Page => b"</h1>\n<p class=open>Nothing is shown.",
    }
}
