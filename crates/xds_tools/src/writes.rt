// The writes of a store, printed.
ghost use Rattle.std.specs.Prelude.{◌≤◌};

use std::alloc::Global;
use std::fs::File;
use std::io::Write;
use std::rt::Files;
use xds_changes::write_lines::line_at;
use xds_frames::{Counted, write_whole};
use xds_machine::files::FileFault;
use xds_machine::machine::Runtime;
use xds_message::Batch;
use xds_program::WritesTask;
use xds_program::run::DONE;
use xds_resource::{Refusal, TypeName};
use xds_telling::serve_telling::{tell, tell_file, tell_store};

/// Prints all writes of a store, a line each, those of a type in ascending order of names, and answers the status. A file that isn't there
/// isn't made.
pub fn print_writes<R, O, E>(
    rt: &R,
    task: &WritesTask,
    output: &mut Counted<O>,
    errors: &mut Counted<E>,
) -> u8
where
    R: Runtime + Files<File = File>,
    O: Write,
    E: Write,
    ensures { result ≤ 1 }
{
    let alloc = rt.alloc();
    let path = task.store.as_str();
    if let Err(error) = File::open(rt, path) {
        return tell_file(alloc, errors, path, FileFault::of(error.kind()));
    }
    let had_log = rt.has_log(path);
    let mut store = match rt.reopen_store(path) {
        Ok(store) => store,
        Err(refusal) => return tell_store(alloc, errors, path, refusal),
    };
    let writes = store.read_all();
    rt.leave_store(path, store, had_log);
    match writes {
        Ok(writes) => match print_batch(alloc, writes, output) {
            Ok(()) => DONE,
            Err(refusal) => tell(alloc, errors, refusal),
        },
        Err(refusal) => tell_store(alloc, errors, path, refusal),
    }
}

// Prints the writes of a batch, type by type.
fn print_batch<O: Write>(
    alloc: Global,
    batch: Batch,
    output: &mut Counted<O>,
) -> Result<(), Refusal> {
    print_type(alloc, &batch, TypeName::Cluster, output)?;
    print_type(alloc, &batch, TypeName::Endpoint, output)?;
    print_type(alloc, &batch, TypeName::Listener, output)?;
    print_type(alloc, &batch, TypeName::Route, output)?;
    print_type(alloc, &batch, TypeName::Secret, output)
}

fn print_type<O: Write>(
    alloc: Global,
    batch: &Batch,
    kind: TypeName,
    output: &mut Counted<O>,
) -> Result<(), Refusal> {
    for index in 0..batch.len_of(kind) {
        let line = line_at(alloc, batch, kind, index)?;
        write_whole(output, line.as_bytes())?;
    }
    Ok(())
}
