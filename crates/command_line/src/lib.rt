//! The command line of `pdp8`: its commands, operands and options, and what they ask for.
#![tactic(auto)]

mod command_name;
mod commands;
pub mod explanations;
mod fault;
mod names;
mod operands;
mod operator;
mod outputs;
mod place_options;
mod program_command;
mod programs;
mod requests;
mod source_programs;
mod sources;
mod table;
mod tapes;
pub mod tips;
mod values;

pub use command_name::{CommandName, MachineCommand};
pub use fault::{CommandLineFault, Misuse, PlaceOption};
pub use names::FileNames;
pub use operator::{DeviceConnections, Interrupt, Session, TeletypeSession, WatchedSession};
pub use outputs::{
    CERTIFICATE_ENDING, DECLARATION_ENDING, Destination, EVENTS_ENDING, SaveOptions,
};
pub use place_options::{AddressReader, PlaceOptions, StopOptions};
pub use program_command::ProgramCommand;
pub use programs::{ProgramNames, ProgramRequest, Task};
pub use requests::{CommandLine, Request, parse_arguments};
pub use source_programs::{MachineTask, SourceProgramRequest};
pub use sources::{AssembleRequest, ListRequest};
pub use tapes::{DumpRequest, MigrateRequest, RunRequest, SourceRequest};
