//! The last lines of a text.

ghost use Rattle.std.specs.Prelude.{◌≡◌};
ghost use Rattle.machine_commands.specs.Last.{last_lines, lines_in, without_lines};

/// How many lines a text has.
#[tactic(auto, using(crate::proofs::LastLemmas::line_more, crate::proofs::LastLemmas::line_same, crate::proofs::LastLemmas::lines_all))]
pub(crate) fn lines_in(text: &[u8]) -> usize
    ensures { result ≡ lines_in text.now }
{
    let mut found = 0;
    for byte in text {
        if *byte == b'\n' {
            found += 1;
        }
    }
    found
}

/// A text without so many lines at its front.
#[tactic(auto, using(crate::proofs::LastLemmas::skip_line, crate::proofs::LastLemmas::skip_byte, crate::proofs::LastLemmas::skip_all, crate::proofs::LastLemmas::skip_done))]
fn without_lines(text: &[u8], skipped: usize) -> &[u8]
    ensures { result.now ≡ without_lines skipped text.now }
{
    let mut left = skipped;
    for index in 0..text.len() {
        if left == 0 {
            return &text[index..];
        }
        if text[index] == b'\n' {
            left -= 1;
        }
    }
    b""
}

/// The last lines of a text, so many or all that there are.
pub(crate) fn last_lines(text: &[u8], most: u32) -> &[u8]
    ensures { result.now ≡ last_lines most text.now }
{
    without_lines(text, lines_in(text).saturating_sub(most as usize))
}
