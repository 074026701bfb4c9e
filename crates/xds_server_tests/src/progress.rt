// How far a run is, told of a reader in memory.
use std::alloc::Global;
use std::io;
use std::io::Read;
use std::sync::Arc;
use std::test::Fail;
use xds_tools::progress::{ProgressReader, RunProgress};

// The line that is told after four seconds, or that there is none yet.
fn line_of(alloc: Global, progress: &RunProgress) -> Result<String, Fail> {
    match progress.line(alloc, 4)? {
        Some(line) => Ok(line),
        None => Ok(String::from_str(alloc, "none")?),
    }
}

// That this is told.
fn tells(alloc: Global, progress: &RunProgress, wanted: &str) -> Result<(), Fail> {
    let line = line_of(alloc, progress)?;
    if line.as_str() == wanted {
        Ok(())
    } else {
        Err(Fail::new(format_args!("{line} and not {wanted}")))
    }
}

// Reads so many pieces of a thousand bytes.
fn read_pieces<R: Read>(reader: &mut R, pieces: u64) -> io::Result<()> {
    let mut piece = [0u8; 1_000];
    for _ in 0..pieces {
        reader.read_exact(&mut piece)?;
    }
    Ok(())
}

#[test]
fn what_was_read_is_told(rt: HostRuntime) -> Result<(), Fail> {
    let alloc = rt.alloc();
    let progress = Arc::new(alloc, RunProgress::new())?;
    let input = io::repeat(10).take(3_500_000);
    let mut reader = ProgressReader::new(input, Arc::try_clone(&progress)?);
    tells(alloc, &progress, "none")?;
    read_pieces(&mut reader, 999)?;
    tells(alloc, &progress, "none")?;
    read_pieces(&mut reader, 1_900)?;
    reader.read(&mut [])?;
    tells(alloc, &progress, "xds: 4 s: 2 MB are read\n")?;
    reader.read_to_end(&mut Vec::new(alloc))?;
    tells(
        alloc,
        &progress,
        "xds: 4 s: the input is read, working on it\n",
    )
}
