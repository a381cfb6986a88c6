use rd_keeper::{Keeper, Put, SqlKeeper};
use rd_notes_rows::{fails_each_call, noted, put};
use sqlite::{Connection, Error};
use std::fs;
use std::rt::HostRuntime;

/// Removes a store and its log, where a run left them.
fn remove_store(rt: &HostRuntime, name: &str, log: &str) {
    let _notes = fs::remove_file(rt, name);
    let _log = fs::remove_file(rt, log);
}

/// Each call of a store that can't be opened fails.
fn is_refused(rt: &HostRuntime, name: &str) -> bool {
    match SqlKeeper::open(rt, rt.alloc(), name) {
        Ok(mut keeper) => {
            keeper.is_refused() && fails_each_call(&mut keeper) && keeper.faults() == 4
        }
        Err(_) => false,
    }
}

fn puts_into_a_file(rt: &HostRuntime, name: &str) -> bool {
    match SqlKeeper::open(rt, rt.alloc(), name) {
        Ok(mut keeper) => put(&mut keeper, 7, 2, 1) == Ok(Put::Fresh),
        Err(_) => false,
    }
}

/// The note is there at the next opening, and no second keeper opens the file meanwhile.
fn reopens(rt: &HostRuntime, name: &str) -> bool {
    match SqlKeeper::open(rt, rt.alloc(), name) {
        Ok(mut keeper) => {
            put(&mut keeper, 7, 9, 0) == Ok(Put::Repeat)
                && keeper.one(7) == Ok(Some(noted(7, 2, 1)))
                && is_refused(rt, name)
        }
        Err(_) => false,
    }
}

#[test]
fn keeps_in_a_file(rt: HostRuntime) {
    remove_store(&rt, "notes_test.db", "notes_test.db-wal");
    assert!(rt; puts_into_a_file(&rt, "notes_test.db"));
    assert!(rt; reopens(&rt, "notes_test.db"));
    remove_store(&rt, "notes_test.db", "notes_test.db-wal");
    assert!(rt; is_refused(&rt, "no_such_folder/notes.db"));
}

/// A text file is refused at each call, and left as it was.
fn leaves_a_text_file(rt: &HostRuntime, name: &str, text: &str) -> bool {
    fs::write(rt, name, text).is_ok() && is_refused(rt, name) && holds(rt, name, text)
}

fn holds(rt: &HostRuntime, name: &str, text: &str) -> bool {
    match fs::read_to_string(rt, name) {
        Ok(read) => read.as_str() == text,
        Err(_) => false,
    }
}

/// A store that was made before there was a table of drops, with a note.
fn older_store() -> &'static str {
    "CREATE TABLE sessions (id INTEGER PRIMARY KEY NOT NULL, \
side INTEGER NOT NULL, dialect INTEGER NOT NULL, began INTEGER NOT NULL, ended INTEGER NOT NULL, \
events INTEGER NOT NULL, exchanges INTEGER NOT NULL, masked INTEGER NOT NULL, \
code INTEGER NOT NULL, link INTEGER NOT NULL, exchange INTEGER NOT NULL, \
place INTEGER NOT NULL, detail INTEGER NOT NULL); \
INSERT INTO sessions VALUES (7, 1, 2, 5, 9223372036854775807, 4294967295, 2, 2, 15, 8, 6, 7, 101)"
}

/// A table of another make.
fn other_store() -> &'static str {
    "CREATE TABLE sessions (id INTEGER PRIMARY KEY, name TEXT)"
}

fn make_store(rt: &HostRuntime, name: &str, statements: &str) -> Result<(), Error> {
    let mut conn = Connection::open(rt, name)?;
    conn.execute_batch(statements)
}

/// Whether a store takes a statement of this text.
fn takes(rt: &HostRuntime, name: &str, statement: &str) -> bool {
    match Connection::open(rt, name) {
        Ok(mut conn) => conn.prepare(statement).is_ok(),
        Err(_) => false,
    }
}

/// An older store is read with nothing dropped, and takes a note with a drop.
fn reads_an_older_store(rt: &HostRuntime, name: &str) -> bool {
    match SqlKeeper::open(rt, rt.alloc(), name) {
        Ok(mut keeper) => {
            keeper.one(7) == Ok(Some(noted(7, 2, 0)))
                && put(&mut keeper, 8, 2, 3) == Ok(Put::Fresh)
                && keeper.one(8) == Ok(Some(noted(8, 2, 3)))
        }
        Err(_) => false,
    }
}

/// A table of another make is refused and stays, and no table is made beside it.
fn leaves_another_make(rt: &HostRuntime, name: &str) -> bool {
    is_refused(rt, name)
        && takes(rt, name, "SELECT id, name FROM sessions")
        && !takes(rt, name, "SELECT * FROM drops")
}

#[test]
fn opens_stores_of_other_makes(rt: HostRuntime) {
    assert!(rt; leaves_a_text_file(&rt, "text_test.db", "no database"));
    remove_store(&rt, "text_test.db", "text_test.db-wal");
    remove_store(&rt, "older_test.db", "older_test.db-wal");
    assert!(rt; make_store(&rt, "older_test.db", older_store()).is_ok());
    assert!(rt; reads_an_older_store(&rt, "older_test.db"));
    assert!(rt; takes(&rt, "older_test.db", "SELECT id, copy FROM drops"));
    remove_store(&rt, "older_test.db", "older_test.db-wal");
    remove_store(&rt, "other_test.db", "other_test.db-wal");
    assert!(rt; make_store(&rt, "other_test.db", other_store()).is_ok());
    assert!(rt; leaves_another_make(&rt, "other_test.db"));
    remove_store(&rt, "other_test.db", "other_test.db-wal");
}
