//! A tape, a certificate and a listing that go out to a writer that takes nothing. What goes out to one with room for so many
//! bytes is shown by commands.

use crate::fixtures::{HELLO, HELLO_CERTIFICATE, HELLO_WORDS, image};
use bin_tape::{ByteSink, Failed, WriteTapeFault, write_tape};
use certificate::{Certificate, WriteFault};
use instruct::Profile;
use pal_asm::assemble;
use std::test::Fail;

/// Takes nothing, and does not say that it failed.
#[derive(Drop)]
struct FullWriter {
    failed: bool,
}

impl ByteSink for FullWriter {
    ghost use Rattle.std.specs.Prelude.{None};

    ghost taken = { λ _. None };

    ghost mark = { λ sink. sink.failed };

    fn write(&mut self, piece: &[u8]) -> Result<usize, Failed> {
        if !piece.is_empty() {
            self.failed = true;
        }
        Ok(0)
    }

    fn failed(&self) -> bool {
        self.failed
    }
}

#[test]
fn a_writer_that_takes_nothing_is_told(rt: HostRuntime) -> Result<(), Fail> {
    let written = write_tape(&image(&HELLO_WORDS), &mut FullWriter { failed: false });
    assert!(rt; written == Err(WriteTapeFault::WriteFault));
    let certificate = Certificate::parse(rt.alloc(), HELLO_CERTIFICATE)?;
    let written = certificate.write(&mut FullWriter { failed: false });
    assert_eq!(rt; written, Err(WriteFault));
    let program = assemble(rt.alloc(), &[HELLO], Profile::Pdp8I)?;
    assert!(rt;
        program
            .write_listing(&mut FullWriter { failed: false })
            .is_err()
    );
    Ok(())
}
