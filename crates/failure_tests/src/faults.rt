//! Tests of faults that no small input has.

use analyser::GuessFault;
use command_parts::status::{Fault, Status};
use std::test::Fail;

#[test]
fn they_have_lines_and_statuses(rt: HostRuntime) -> Result<(), Fail> {
    let (memory, turns) = (Fault::NoMemory, Fault::Guess(GuessFault::TurnsSpent));
    assert!(rt; memory.status() == Status::Memory && turns.status() == Status::Refused);
    let text = format!(in rt.alloc(); "{memory}, {turns}")?;
    assert_eq!(rt;
        text.as_str(),
        "pdp8: memory: NoMemory, pdp8: guess: TurnsSpent"
    );
    Ok(())
}
