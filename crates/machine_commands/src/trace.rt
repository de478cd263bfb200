//! The trace of a run: a line for each instruction that was carried out.

ghost use Rattle.std.specs.Prelude.{◌≡◌, ◌+◌, ◌≤◌, ◌++◌, false, codes, is_err, length, OnOk, OnErr};
ghost use Rattle.std.specs.Io.KnownBytes.{Appends};
ghost use Rattle.streams.specs.Bytes.{AppendsFront};
ghost use Rattle.word12.specs.Words.{octal_text};
ghost use Rattle.processor.specs.Steps.{state_of};
ghost use Rattle.machine_commands.specs.Trace.{effect_text, line_of, link_text, mq_text, place_text, trace_line};

use arrayvec::ArrayString;
use instruct::{Profile, name};
use peripherals::Seen;
use processor::Cpu;
use streams::{ByteSink, Failed, put};
use word12::{Link, Word};

/// Adds the four octal digits of a word.
fn push_octal(line: &mut ArrayString<80>, word: Word)
    requires { length line.old.bytes ≤ 76 }
    ensures text { line.new.bytes ≡ line.old.bytes ++ octal_text word }
    ensures length { length line.new.bytes ≡ length line.old.bytes + 4 }
{
    let [a, b, c, d] = word.to_octal();
    line.push(char::from(a));
    line.push(char::from(b));
    line.push(char::from(c));
    line.push(char::from(d));
}

/// Adds an address, the word there and its name.
fn push_place(line: &mut ArrayString<80>, at: Word, word: Word, profile: Profile)
    requires { length line.old.bytes ≡ 0 }
    ensures text { line.new.bytes ≡ line.old.bytes ++ place_text profile at word }
    ensures room { length line.new.bytes ≤ 42 }
{
    push_octal(line, at);
    line.push_str(" ");
    push_octal(line, word);
    line.push_str(" ");
    line.push_str(name(word, profile).as_str());
}

/// Adds the link after its name.
fn push_link(line: &mut ArrayString<80>, link: Link)
    requires { length line.old.bytes ≤ 76 }
    ensures text { line.new.bytes ≡ line.old.bytes ++ (codes " L=" ++ link_text link) }
    ensures length { length line.new.bytes ≡ length line.old.bytes + 4 }
{
    line.push_str(if link.is_set() { " L=1" } else { " L=0" });
}

/// Adds the MQ register after its name, on an 8/E.
fn push_mq(line: &mut ArrayString<80>, profile: Profile, mq: Word)
    requires { length line.old.bytes ≤ 70 }
    ensures text { line.new.bytes ≡ line.old.bytes ++ mq_text profile mq }
    ensures length { length line.new.bytes ≤ length line.old.bytes + 8 }
{
    if profile == Profile::Pdp8E {
        line.push_str(" MQ=");
        push_octal(line, mq);
    }
}

/// Adds the registers.
fn push_effect(line: &mut ArrayString<80>, cpu: &Cpu)
    requires { length line.old.bytes ≤ 42 }
    ensures text { line.new.bytes ≡
        line.old.bytes ++ effect_text cpu.now.profile (state_of cpu.now) }
    ensures length { length line.new.bytes ≤ 62 }
{
    line.push_str(" AC=");
    push_octal(line, cpu.ac);
    push_link(line, cpu.link);
    push_mq(line, cpu.profile, cpu.mq);
}

/// Adds the line of an instruction.
fn push_line(line: &mut ArrayString<80>, at: Word, word: Word, cpu: &Cpu)
    requires { length line.old.bytes ≡ 0 }
    ensures { line.new.bytes ≡
        line.old.bytes ++ trace_line cpu.now.profile at word (state_of cpu.now) }
{
    push_place(line, at, word, cpu.profile);
    push_effect(line, cpu);
    line.push('\n');
}

/// Writes the line of an instruction: its address, word and name before it, and the accumulator,
/// the link and on an 8/E the MQ register after it. Where no instruction was carried out there is no
/// line.
pub(crate) fn put_trace<W: ByteSink>(
    out: &mut W,
    seen: &Seen,
    at: Word,
    word: Word,
    cpu: &Cpu,
) -> Result<(), Failed>
    requires unmarked { W.mark out.old ≡ false }
    ensures whole { OnOk result (Appends (W.taken out.old) (W.taken out.new)
        (line_of cpu.now.profile seen.now at word (state_of cpu.now))) }
    ensures front { OnErr result (AppendsFront (W.taken out.old) (W.taken out.new)
        (line_of cpu.now.profile seen.now at word (state_of cpu.now))) }
    ensures marks { W.mark out.new ≡ is_err result }
{
    let mut line = ArrayString::new();
    if matches!(seen, Seen::Ran | Seen::Halted) {
        push_line(&mut line, at, word, cpu);
    }
    put(out, line.as_str().as_bytes())
}
