//! Tests of the whole program when a file or a stream fails: what has been written by then, what is reported, and the
//! status.

use crate::runtime::{OutputLimits, ROOMY, run_program};

/// Command lines with a file on which a read fails after some bytes.
const FAILING_READS: [&str; 25] = [
    "pdp8 run failing.bin",
    "pdp8 run failing.bin --events step.ev",
    "pdp8 run halt.bin --events failing.ev",
    "pdp8 run failing.bin --teletype",
    "pdp8 run letter.bin --reader failing.tape --punch o",
    "pdp8 run letter.bin --keys failing.ev --mark --teletype",
    "pdp8 dump failing.bin",
    "pdp8 assemble o failing.pal halt.pal",
    "pdp8 assemble o bad.pal failing.pal",
    "pdp8 list failing.pal",
    "pdp8 list bad.pal failing.pal",
    "pdp8 watch failing.bin halt.dcl step.ev",
    "pdp8 watch halt.bin failing.dcl step.ev",
    "pdp8 watch halt.bin halt.dcl failing.ev",
    "pdp8 watch halt.bin failing.dcl --steps 5",
    "pdp8 watch halt.bin halt.dcl --reader failing.tape --keys step.ev",
    "pdp8 watch halt.bin halt.dcl --reader step.ev --keys failing.ev",
    "pdp8 check halt.bin failing.dcl halt.cert",
    "pdp8 check halt.bin halt.dcl failing.cert",
    "pdp8 check halt.bin halt.dcl failing.several",
    "pdp8 check halt.bin halt.dcl failing.cert --why",
    "pdp8 declare failing.bin o",
    "pdp8 guess failing.bin halt.dcl o",
    "pdp8 guess halt.bin failing.dcl o --why",
    "pdp8 migrate failing.cert o",
];

#[test]
fn a_read_that_fails_is_told(rt: HostRuntime) {
    for words in &FAILING_READS {
        let end = run_program(rt.alloc(), words, ROOMY);
        assert_eq!(rt; end.status, 3, "{words}");
        assert!(rt;
            end.told.starts_with(b"pdp8: device: ReadFault\n"),
            "{words}"
        );
        assert!(rt; end.printed.is_empty() && end.written.is_empty(), "{words}");
    }
}

/// Command lines that print something or write a file, and the status if everything can be written.
const WRITING: [(&str, u8); 23] = [
    ("pdp8 run halt.bin", 0),
    ("pdp8 run halt.bin --trace", 0),
    ("pdp8 run halt.bin --events step.ev", 0),
    ("pdp8 run letter.bin --punch o", 0),
    ("pdp8 run letter.bin --punch o --teletype", 0),
    ("pdp8 dump halt.bin", 0),
    ("pdp8 assemble o halt.pal", 0),
    ("pdp8 assemble - halt.pal", 0),
    ("pdp8 list -", 0),
    ("pdp8 watch halt.bin halt.dcl step.ev", 0),
    ("pdp8 watch halt.bin wild.dcl step.ev", 1),
    ("pdp8 watch halt.bin halt.dcl --keys step.ev", 0),
    ("pdp8 watch halt.bin wild.dcl --mark", 1),
    ("pdp8 check halt.bin halt.dcl halt.cert", 0),
    ("pdp8 check halt.bin halt.dcl several.cert", 0),
    ("pdp8 check halt.bin wild.dcl halt.cert --why", 1),
    ("pdp8 declare halt.bin o", 0),
    ("pdp8 declare halt.bin -", 0),
    ("pdp8 guess halt.bin halt.dcl o", 0),
    ("pdp8 guess halt.bin halt.dcl o --why", 0),
    ("pdp8 guess halt.bin halt.dcl -", 0),
    ("pdp8 migrate halt.cert o", 0),
    ("pdp8 --version", 0),
];

#[test]
fn a_write_that_fails_is_told(rt: HostRuntime) {
    for (words, status) in &WRITING {
        let whole = run_program(rt.alloc(), words, ROOMY);
        assert_eq!(rt; whole.status, *status, "{words}");
        for eighth in 0..8usize {
            let rooms = OutputLimits {
                printed: whole.printed.len().saturating_mul(eighth) / 8,
                written: whole.written.len().saturating_mul(eighth) / 8,
                ..ROOMY
            };
            let end = run_program(rt.alloc(), words, rooms);
            let told = end.told.starts_with(b"pdp8: device: WriteFault\n");
            assert!(rt; end.status == 3 && told, "{words}");
            assert!(rt; whole.printed.starts_with(&end.printed), "{words}");
            assert!(rt; whole.written.starts_with(&end.written), "{words}");
        }
    }
}

/// Command lines that report something on standard error, and the status.
const TOLD: [(&str, u8); 7] = [
    ("pdp8 run", 2),
    ("pdp8 fly", 2),
    ("pdp8 list bad.pal", 1),
    ("pdp8 list bad.pal --why", 1),
    ("pdp8 guess halt.bin wild.dcl o --why", 1),
    ("pdp8 run failing.bin", 3),
    ("pdp8 run letter.bin --teletype", 3),
];

#[test]
fn a_standard_error_that_fails_leaves_the_status(rt: HostRuntime) {
    for (words, status) in &TOLD {
        let end = run_program(rt.alloc(), words, OutputLimits { told: 0, ..ROOMY });
        assert_eq!(rt; end.status, *status, "{words}");
        assert!(rt; end.told.is_empty() && end.written.is_empty(), "{words}");
    }
}
