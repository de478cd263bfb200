//! The forms that lines have.

use crate::inputs::lines::first_word;

/// The form of a line of a declaration, by its first word.
pub(crate) fn declaration_form(line: &[u8]) -> &'static str {
    match first_word(line) {
        b"start" => "expected `start A`, where A is one to four octal digits",
        b"main" =>
            "expected `main R..`, where R is an address such as 0200 or a range such as 0200-0213",
        b"sub" =>
            "expected `sub E body R.. returns d..`, where E is the entry, R an address or a range such as 0215-0221, and d a digit from 0 to 7",
        b"var" =>
            "expected `var R..`, where R is an address such as 0224 or a range such as 0224-0230",
        b"stop" => "expected `stop A..`, where A is one to four octal digits",
        b"pause" => "expected `pause A..`, where A is one to four octal digits",
        b"profile" => "expected `profile 8i` or `profile 8e`",
        b"read" =>
            "expected `read R..`, where R is an address such as 0224 or a range such as 0224-0230",
        b"skips" =>
            "expected `skips E R..`, where E is the entry and R an offset from 0 to 77 in octal digits or a range such as 1-20",
        b"moves" => "expected `moves E..`, where E is the entry of a routine",
        b"abandon" => "expected `abandon A..`, where A is one to four octal digits",
        b"holds" =>
            "expected `holds A.. S`, where S is `ac R..`, `mq R..`, `link 0`, `link 1` or `cell C R..`, and R a word such as 0305 or a range",
        b"returns" =>
            "expected `returns E d.. S`, where E is the entry, d an offset from 0 to 77, and S is `ac R..`, `mq R..`, `link 0`, `link 1` or `cell C R..`",
        _ =>
            "expected start, main, sub, var, stop, pause, profile, read, skips, moves, abandon, holds or returns at the beginning of the line, in lower case; / begins a comment",
    }
}

/// The form of a line of a list of events, by its first word.
pub(crate) fn event_form(line: &[u8]) -> &'static str {
    match first_word(line) {
        b"step" => "expected `step` or `step N`, where N is a decimal number from 1 to 1000000",
        b"key" => "expected `key B`, where B is one to three octal digits up to 377",
        b"reader" => "expected `reader B`, where B is one to three octal digits up to 377",
        b"switches" => "expected `switches W`, where W is one to four octal digits",
        b"printer" => "expected `printer` and nothing else",
        b"punch" => "expected `punch` and nothing else",
        b"continue" => "expected `continue` and nothing else",
        _ =>
            "expected step, key, reader, printer, punch, switches or continue, in lower case; / begins a comment",
    }
}

/// The form of a line of a certificate, by its first word.
pub(crate) fn certificate_form(line: &[u8]) -> &'static str {
    match first_word(line) {
        b"routine" => "expected `routine E rank R sites S writes S`, with one space between words",
        b"fact" =>
            "expected `fact A ac S link L offsets O`, in version 2 with `mq S` before `link`, in version 3 also with `sites S` before `ac`, with one space between words",
        b"exit" =>
            "expected `exit E D ac S link L`, in version 2 with `mq S` before `link`, in version 3 also with `sites S` before `ac`, with one space between words",
        b"cell" => "expected `cell A S`, below a fact or an exit, with one space between words",
        b"equal" =>
            "expected `equal X Y W`, below a fact or an exit of version 1 or 2, with one space between words",
        b"sum" =>
            "expected `sum T C T in S` or `sum T C T C T in S`, below a fact or an exit of version 3, with one space between words",
        b"func" =>
            "expected `func X K link L STEP..`, below a fact or an exit of version 3, with one space between words",
        b"end" => "expected `end`, a line feed, and nothing after it",
        _ =>
            "expected routine, fact, exit, cell, equal, sum, func or end at the beginning of the line; the last line is `end` with a line feed, and there are no comments",
    }
}
