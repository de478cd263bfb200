//! Commands that work on a certificate alone.

ghost use Rattle.std.specs.Prelude.{◌≡◌, false};

use crate::files::{finish, open_input, open_output};
use crate::standard_error::open_input_if;
use command_line::MigrateRequest;
use command_parts::status::{Fault, Status};
use search_commands::migrating::{migrate, migrate_with_sites};
use std::alloc::Global;
use std::rt::Files;
use streams::ByteSource;
use streams::standard::StdWriter;

/// Migrates a certificate from these inputs to a file.
fn migrate_into<R: Files + Print, D: ByteSource, T: ByteSource>(
    rt: &R,
    alloc: Global,
    request: &MigrateRequest<'_>,
    declaration: &mut D,
    text: &mut T,
) -> Result<Status, Fault>
    requires readable { D.mark declaration.old ≡ false }
    requires text_readable { T.mark text.old ≡ false }
{
    let mut file = open_output(rt, alloc, request.out)?;
    let mut out = StdWriter::new(&mut file);
    let status = if request.declaration.is_some() {
        migrate_with_sites(alloc, declaration, text, &mut out)?
    } else {
        migrate(alloc, text, &mut out)?
    };
    finish(&mut file, status)
}

/// Migrates the certificate in a file: to version 3 if there is a declaration, which is opened first, otherwise to
/// version 2.
///
/// # Errors
///
/// As for `migrate` and `migrate_with_sites`, and `Device` if a file cannot be opened, created or put in its place.
#[inline(never)]
pub fn migrate_from<R: Files + Input + Print>(
    rt: &R,
    alloc: Global,
    request: &MigrateRequest<'_>,
) -> Result<Status, Fault> {
    let mut declaration = open_input_if(rt, request.declaration)?;
    let mut text = open_input(rt, request.certificate)?;
    migrate_into(rt, alloc, request, &mut declaration, &mut text)
}
