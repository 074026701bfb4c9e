// Files that are no store. Each is refused by what it is, and left as it was.
use crate::given::{
    FIRST, HELD, closed_files, database, empty, fill, holds, opened, read, take, wanted,
};
use sqlite_disk::{Disk, Files, Memory};
use std::alloc::Global;
use std::test::Fail;
use xds_store::{FileStore, Store, StoreRefusal, open_files};

// What a refusal says of two files, and whether it left them as they were.
fn refusal(alloc: Global, files: Files<Memory>) -> Result<Option<(StoreRefusal, bool)>, Fail> {
    let db = Vec::from_slice(alloc, files.db.bytes())?;
    let log = Vec::from_slice(alloc, files.log.bytes())?;
    match open_files(alloc, files, 7) {
        Ok(_) => Ok(None),
        Err((refusal, left)) => {
            let same = left.db.bytes() == db.as_slice() && left.log.bytes() == log.as_slice();
            Ok(Some((refusal, same)))
        }
    }
}

// Writes bytes into the database file.
fn overwrite(files: &mut Files<Memory>, at: usize, bytes: &[u8]) -> Result<(), Fail> {
    wanted(files.db.may_be_used(), "a file that may be used")?;
    files.db.write_at(at, bytes)?;
    files.db.sync()?;
    Ok(())
}

fn of_text(alloc: Global, text: &str) -> Result<Option<(StoreRefusal, bool)>, Fail> {
    let mut files = empty(alloc);
    overwrite(&mut files, 0, text.as_bytes())?;
    refusal(alloc, files)
}

#[test]
fn a_text_is_no_store(rt: HostRuntime) -> Result<(), Fail> {
    let told = Some((StoreRefusal::NotAStore, true));
    assert_eq!(rt; of_text(rt.alloc(), "a line of a text\n")?, told);
    assert_eq!(rt; of_text(rt.alloc(), "SQLite format 3\0")?, told);
    assert_eq!(rt; of_text(rt.alloc(), "x")?, told);
    assert_eq!(rt; of_text(rt.alloc(), "\0")?, told);
    Ok(())
}

#[test]
fn another_database_is_no_store(rt: HostRuntime) -> Result<(), Fail> {
    for is_copied in [true, false] {
        let files = database(rt.alloc(), "t", "CREATE TABLE t(a)", is_copied)?;
        assert_eq!(rt;
            refusal(rt.alloc(), files)?,
            Some((StoreRefusal::NotAStore, true))
        );
    }
    Ok(())
}

#[test]
fn a_later_format_is_told(rt: HostRuntime) -> Result<(), Fail> {
    let sql = "CREATE TABLE replica_numbers (format INTEGER PRIMARY KEY, other)";
    for is_copied in [true, false] {
        let files = database(rt.alloc(), "replica_numbers", sql, is_copied)?;
        assert_eq!(rt;
            refusal(rt.alloc(), files)?,
            Some((StoreRefusal::LaterFormat, true))
        );
    }
    Ok(())
}

// A store that gave out three numbers and has a batch, and whose log was copied into its file.
fn store(alloc: Global) -> Result<Files<Memory>, Fail> {
    let mut store = opened(alloc, empty(alloc), 7)?;
    fill(alloc, &mut store, 3, FIRST)?;
    closed_files(store)
}

// What comes of a store whose file has another byte at a place: it is refused as damaged, or no store, or what it
// holds is as it was.
fn is_told(alloc: Global, file: &[u8], at: usize) -> Result<bool, Fail> {
    let byte = *file.get(at).ok_or("a byte of the file")?;
    let mut files = empty(alloc);
    overwrite(&mut files, 0, file)?;
    overwrite(&mut files, at, &[byte ^ 0x15])?;
    match open_files(alloc, files, 7) {
        Err((refusal, _)) => Ok(refusal != StoreRefusal::OutOfMemory),
        Ok(mut store) => is_sound(alloc, &mut store),
    }
}

// Whether a store holds what it held, or is refused as damaged.
fn is_sound(alloc: Global, store: &mut Store<FileStore<Memory>>) -> Result<bool, Fail> {
    match read(store) {
        Ok(batch) => Ok(batch.write(alloc)?.as_str() == HELD[1]),
        Err(refusal) => Ok(refusal == StoreRefusal::Damaged),
    }
}

// Damages the file's byte at each of these places in turn.
fn each_is_told(rt: &HostRuntime, places: &[usize]) -> Result<(), Fail> {
    let files = store(rt.alloc())?;
    for at in places {
        wanted(is_told(rt.alloc(), files.db.bytes(), *at)?, "what is told")?;
    }
    Ok(())
}

// A byte of each field of a file's header, to the count of free pages.
#[test]
fn damage_to_the_first_half_of_a_header_is_told(rt: HostRuntime) -> Result<(), Fail> {
    each_is_told(
        &rt,
        &[0, 15, 16, 17, 18, 19, 20, 21, 22, 23, 27, 31, 35, 39],
    )
}

// A byte of each field that follows, and of each field of the first page's header.
#[test]
fn damage_to_the_second_half_of_a_header_is_told(rt: HostRuntime) -> Result<(), Fail> {
    each_is_told(
        &rt,
        &[
            43, 47, 51, 55, 59, 63, 67, 71, 91, 95, 99, 100, 102, 104, 106, 107,
        ],
    )
}

// Where the bytes begin in the file.
fn place_of(file: &[u8], bytes: &[u8]) -> Option<usize> {
    for at in 0..file.len() {
        if file[at..].starts_with(bytes) {
            return Some(at);
        }
    }
    None
}

// What the store says whose file has these bytes in place of those, first when all is read and then when a number is
// taken. It holds what it held before, once the bytes are put back.
fn told_of(
    alloc: Global,
    bytes: &[u8],
    others: &[u8],
) -> Result<(Option<StoreRefusal>, Option<StoreRefusal>), Fail> {
    let mut files = store(alloc)?;
    let at = place_of(files.db.bytes(), bytes).ok_or("the bytes are in the file")?;
    overwrite(&mut files, at, others)?;
    let (read, taken, files) = damaged(alloc, files)?;
    mended(alloc, files, at, bytes, if taken.is_some() { 4 } else { 5 })?;
    Ok((read, taken))
}

// What a store over these files says, and the files once it is closed.
fn damaged(
    alloc: Global,
    files: Files<Memory>,
) -> Result<(Option<StoreRefusal>, Option<StoreRefusal>, Files<Memory>), Fail> {
    let mut store = opened(alloc, files, 8)?;
    let (read, taken) = (read(&mut store).err(), take(&mut store, 1).err());
    Ok((read, taken, closed_files(store)?))
}

// The bytes are put back, and the store goes on.
fn mended(
    alloc: Global,
    mut files: Files<Memory>,
    at: usize,
    bytes: &[u8],
    free: u16,
) -> Result<(), Fail> {
    overwrite(&mut files, at, bytes)?;
    let mut store = opened(alloc, files, 9)?;
    goes_on(alloc, &mut store, free)
}

// A store holds what it held, and its next number is this one.
fn goes_on(alloc: Global, store: &mut Store<FileStore<Memory>>, free: u16) -> Result<(), Fail> {
    holds(alloc, store, HELD[1])?;
    wanted(take(store, 1)? == free, "the next number")
}

#[test]
fn damage_to_a_row_is_told_before_a_number_is_taken(rt: HostRuntime) -> Result<(), Fail> {
    let damaged = Some(StoreRefusal::Damaged);
    assert_eq!(rt;
        told_of(rt.alloc(), b"cluster", b"clarter")?,
        (damaged, None)
    );
    assert_eq!(rt;
        told_of(rt.alloc(), b"{\"@type", b"{\"@tape")?,
        (damaged, None)
    );
    assert_eq!(rt; told_of(rt.alloc(), b"[\"g\"", b"[\"g\\")?, (damaged, None));
    Ok(())
}

// The row of the table of numbers: its length and key, then a header of three bytes, the key's place and the number.
// rule: new-numbers
#[test]
fn damage_to_the_numbers_is_told(rt: HostRuntime) -> Result<(), Fail> {
    let row = b"\x04\x01\x03\0\x01\x04";
    let none = told_of(rt.alloc(), row, b"\x04\x01\x03\0\x01\xff")?;
    assert_eq!(rt; none, (None, Some(StoreRefusal::Damaged)));
    let later = told_of(rt.alloc(), row, b"\x04\x02\x03\0\x01\x04")?;
    assert_eq!(rt; later, (None, Some(StoreRefusal::LaterFormat)));
    Ok(())
}
