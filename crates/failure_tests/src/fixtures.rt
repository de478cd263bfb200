//! A tape with a single HLT, with declarations and certificates, and a program that prints and punches.

/// A tape with HLT at 0200.
pub static HALT: &[u8] = b"\x80\x80\x80\x80\x42\x00\x3c\x02\x02\x00\x80\x80\x80\x80";

/// Its declaration, and one that leaves out the halt.
pub static HALT_DECLARED: &[u8] = b"start 200\nmain 200\nstop 200\n";

pub static UNDECLARED: &[u8] = b"start 200\nmain 200\n";

/// Its certificate.
pub const HALT_CERTIFICATE: &[u8] =
    b"PDP8-CERTIFICATE 1\nfact 0200 ac 0000-7777 link 01 offsets -\nend\n";

/// A certificate of version 3 with a fact for each link.
pub const HALT_SEVERAL: &[u8] = b"PDP8-CERTIFICATE 3\n\
    fact 0200 sites - ac 0000-7777 mq 0000-7777 link 0 offsets -\n\
    fact 0200 sites - ac 0000-7777 mq 0000-7777 link 1 offsets -\nend\n";

/// The tape of a program that prints and punches an A: TAD 0204, TLS, PLS, HLT, 0301.
pub static LETTER: &[u8] =
    b"\x80\x80\x42\x00\x0a\x04\x30\x26\x30\x16\x3c\x02\x03\x01\x04\x2e\x80\x80";
