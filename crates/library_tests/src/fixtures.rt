//! The program that prints HELLO, as a source, as words and on tape, with its declaration and its certificate.

use bin_tape::Image;
use peripherals::Event;
use word12::Word;

/// The source.
pub const HELLO: &[u8] =
    b"/HELLO\n*200\nSTART, CLA CLL\n TLS\n TAD TABLE\n DCA 10\n TAD COUNT\n DCA LEFT\nLOOP, TAD I 10\n JMS TYPE\n ISZ LEFT\n JMP LOOP\n HLT\n JMP START\nTYPE, 0\n TSF\n JMP .-1\n TLS\n CLA\n JMP I TYPE\nTABLE, LEFT\nCOUNT, -5\nLEFT, 0\n 310;305;314;314;317\n$\n";

/// The words, from 0200 on.
pub static HELLO_WORDS: [u16; 26] = [
    0o7300, 0o6046, 0o1222, 0o3010, 0o1223, 0o3224, 0o1410, 0o4214, 0o2224, 0o5206, 0o7402, 0o5200,
    0o0000, 0o6041, 0o5215, 0o6046, 0o7200, 0o5614, 0o0224, 0o7773, 0o0000, 0o0310, 0o0305, 0o0314,
    0o0314, 0o0317,
];

/// The tape, between a leader and a trailer; its checksum is 2177.
pub static HELLO_TAPE: &[u8; 88] = b"\
    \x80\x80\x80\x80\x80\x80\x80\x80\x80\x80\x80\x80\x80\x80\x80\x80\x42\x00\x3b\x00\x30\x26\
    \x0a\x12\x18\x08\x0a\x13\x1a\x14\x0c\x08\x22\x0c\x12\x14\x2a\x06\x3c\x02\x2a\x00\x00\x00\
    \x30\x21\x2a\x0d\x30\x26\x3a\x00\x2e\x0c\x02\x14\x3f\x3b\x00\x00\x03\x08\x03\x05\x03\x0c\
    \x03\x0c\x03\x0f\x11\x3f\x80\x80\x80\x80\x80\x80\x80\x80\x80\x80\x80\x80\x80\x80\x80\x80";

/// What it prints: 0000 and then HELLO.
pub static PRINTED: [u8; 6] = [0o000, 0o310, 0o305, 0o314, 0o314, 0o317];

/// The declaration.
pub const HELLO_DECLARED: &[u8] =
    b"start 0200\nmain 0200-0213\nsub 0214 body 0215-0221 returns 0\nvar 0010 0224\npause 0212\n";

/// The certificate.
pub const HELLO_CERTIFICATE: &[u8] = b"PDP8-CERTIFICATE 1\n\
    routine 0214 rank 00 sites 0207 writes -\nfact 0200 ac 0000-7777 link 01 offsets -\n\
    fact 0201 ac 0000 link 0 offsets -\nfact 0202 ac 0000 link 0 offsets -\n\
    fact 0203 ac 0224 link 0 offsets -\nfact 0204 ac 0000 link 0 offsets -\ncell 0010 0224\n\
    fact 0205 ac 7773 link 0 offsets -\ncell 0010 0224\nfact 0206 ac 0000 link 0 offsets -\n\
    cell 0010 0224-0230\ncell 0224 7773-7777\nequal 0010 0224 0231\n\
    fact 0207 ac 0305,0310,0314,0317 link 0 offsets -\ncell 0010 0225-0231\ncell 0224 7773-7777\n\
    equal 0010 0224 0232\nfact 0210 ac 0000 link 0 offsets -\ncell 0010 0225-0231\ncell 0224 7773-7777\n\
    equal 0010 0224 0232\nfact 0211 ac 0000 link 0 offsets -\ncell 0010 0225-0231\ncell 0224 7774-7777\n\
    equal 0010 0224 0231\nfact 0212 ac 0000 link 0 offsets -\nfact 0213 ac 0000 link 0 offsets -\n\
    fact 0215 ac 0305,0310,0314,0317 link 0 offsets 0\nfact 0216 ac 0305,0310,0314,0317 link 0 offsets 0\n\
    fact 0217 ac 0305,0310,0314,0317 link 0 offsets 0\nfact 0220 ac 0305,0310,0314,0317 link 0 offsets 0\n\
    fact 0221 ac 0000 link 0 offsets 0\nexit 0214 0 ac 0000 link 0\nend\n";

/// A certificate of version 3 with each kind of line: two facts stand at one address, distinguished by their sites, and there
/// are two exits for one offset.
pub const SEVERAL: &[u8] = b"PDP8-CERTIFICATE 3\n\
    routine 0214 rank 11 sites 0202,0206 writes 0010\n\
    fact 0215 sites 0202 ac 0000 mq 0000-7777 link 1 offsets 00,12\n\
    cell 0010 0225-0231\n\
    sum AC 0012 0010 in 0065\n\
    sum AC - 0010 + 0011 in 0000-0005\n\
    sum 0010 - [0011+7777] in 0000\n\
    func 0010 0003 link 0 7006 AND 0077\n\
    fact 0215 sites 0206 ac 0001 mq 0000-7777 link 01 offsets 01\n\
    exit 0214 12 sites 0202 ac 0000 mq 0000-7777 link 0\n\
    exit 0214 12 sites 0206 ac 0001 mq 0000-7777 link 0\n\
    end\n";

/// The word of a number.
pub fn word(value: u16) -> Word {
    Word::new(value).unwrap_or(Word::ZERO)
}

/// The words that follow each other from 0200 on.
pub fn image(words: &[u16]) -> Image {
    let mut image = Image::empty();
    let mut address = word(0o200);
    for value in words {
        image.set(address, word(*value));
        address = address.increment();
    }
    image
}

/// Rounds of a step, the printer's completion and the punch's, by which the program comes to its halt.
pub fn rounds() -> [Event; 138] {
    let mut events = [Event::Step; 138];
    for round in 0..46 {
        events[3 * round + 1] = Event::PrinterDone;
        events[3 * round + 2] = Event::PunchDone;
    }
    events
}
