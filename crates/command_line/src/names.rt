//! The command of a request, and the names of the files that it works on.

ghost use Rattle.std.specs.Prelude.{◌≡◌, [], ◌∷◌};
ghost use Rattle.command_line.specs.CommandLines.{request_command, request_parts};

use crate::command_name::CommandName;
use crate::requests::Request;

/// The names of a request's inputs and of its outputs; `-` stands for a standard stream, and the value of `--save`
/// for the files that begin with it.
#[derive(Clone, Copy)]
pub struct FileNames<'a> {
    /// The name of the tape's file.
    pub tape: Option<&'a str>,
    /// The name of the declaration's file.
    pub declaration: Option<&'a str>,
    /// The name of the certificate's file.
    pub certificate: Option<&'a str>,
    /// The name of the file of events.
    pub events: Option<&'a str>,
    /// The name of the file whose frames are in the reader.
    pub reader: Option<&'a str>,
    /// The name of the file of the keys.
    pub keys: Option<&'a str>,
    /// The name of the result's file.
    pub output: Option<&'a str>,
    /// The name of another output's file.
    pub second_output: Option<&'a str>,
}

impl<'a> FileNames<'a> {
    /// No names.
    pub const NONE: FileNames<'static> = FileNames {
        tape: None,
        declaration: None,
        certificate: None,
        events: None,
        reader: None,
        keys: None,
        output: None,
        second_output: None,
    };

    /// The names of the inputs, in the order in which they are read.
    pub fn inputs(&self) -> [Option<&'a str>; 6]
        ensures { result ≡ self.now.tape ∷ self.now.declaration ∷ self.now.certificate ∷
            self.now.events ∷ self.now.reader ∷ self.now.keys ∷ [] }
    {
        [
            self.tape,
            self.declaration,
            self.certificate,
            self.events,
            self.reader,
            self.keys,
        ]
    }
}

impl<'a> Request<'a> {
    /// Its command.
    pub fn command(&self) -> CommandName
        ensures { result ≡ request_command self.now }
    {
        match self {
            Request::Tape(task) => CommandName::Machine(task.command()),
            Request::Sourced(asked) => CommandName::Machine(asked.task.command()),
            Request::Assemble(_) => CommandName::Assemble,
            Request::Source(_) => CommandName::Source,
            Request::List(_) => CommandName::List,
            Request::Explain { .. } => CommandName::Explain,
            Request::Migrate(_) => CommandName::Migrate,
            Request::Program(asked) => asked.task.command(),
        }
    }

    /// The names of the parts of its source, if it has one.
    pub fn parts(&self) -> &[&'a str]
        ensures { result.now ≡ request_parts self.now }
    {
        match self {
            Request::Assemble(asked) => &asked.sources,
            Request::List(asked) => &asked.sources,
            Request::Sourced(asked) => &asked.parts,
            Request::Program(asked) => asked.program.parts(),
            _ => &[],
        }
    }

    /// The names of its inputs and of its outputs, apart from the parts of a source.
    pub fn names(&self) -> FileNames<'a> {
        match self {
            Request::Tape(task) => task.names(),
            Request::Sourced(asked) => asked.task.names(),
            Request::Assemble(assemble) => assemble.names(),
            Request::Source(source) => source.names(),
            Request::List(_) | Request::Explain { .. } => FileNames {
                output: Some("-"),
                ..FileNames::NONE
            },
            Request::Migrate(migrate) => migrate.names(),
            Request::Program(asked) => asked.names(),
        }
    }
}
