ghost use Rattle.std.specs.Prelude.{◌≤◌, ◌-◌, ◌^◌};

use crate::notes::Notes;
use rd_base::{NoMemory, SessionNote};
use sqlite::types::ValueRef;
use sqlite::{Alter, Connection, Error, ErrorCode, Row, Transaction, params};
use sqlite_resolve::CompileError;
use std::alloc::Global;

const MAKE_SESSIONS: &str = "CREATE TABLE sessions (id INTEGER PRIMARY KEY NOT NULL, \
side INTEGER NOT NULL, dialect INTEGER NOT NULL, began INTEGER NOT NULL, ended INTEGER NOT NULL, \
events INTEGER NOT NULL, exchanges INTEGER NOT NULL, masked INTEGER NOT NULL, code INTEGER NOT NULL, \
link INTEGER NOT NULL, exchange INTEGER NOT NULL, place INTEGER NOT NULL, detail INTEGER NOT NULL)";

const MAKE_DROPS: &str =
    "CREATE TABLE drops (id INTEGER PRIMARY KEY NOT NULL, copy INTEGER NOT NULL)";

const PUT_SESSION: &str =
    "INSERT INTO sessions (id, side, dialect, began, ended, events, exchanges, \
masked, code, link, exchange, place, detail) \
VALUES (?1, ?2, ?3, ?4, ?5, ?6, ?7, ?8, ?9, ?10, ?11, ?12, ?13) \
ON CONFLICT (id) DO NOTHING RETURNING id";

const PUT_DROP: &str = "INSERT INTO drops (id, copy) VALUES (?1, ?2) \
ON CONFLICT (id) DO UPDATE SET copy = excluded.copy";

const ONE: &str =
    "SELECT s.id, s.side, s.dialect, s.began, s.ended, s.events, s.exchanges, s.masked, \
s.code, s.link, s.exchange, s.place, s.detail, coalesce(d.copy, 0) \
FROM sessions AS s LEFT JOIN drops AS d ON d.id = s.id WHERE s.id = ?1";

const PAGE: &str =
    "SELECT s.id, s.side, s.dialect, s.began, s.ended, s.events, s.exchanges, s.masked, \
s.code, s.link, s.exchange, s.place, s.detail, coalesce(d.copy, 0) \
FROM sessions AS s LEFT JOIN drops AS d ON d.id = s.id WHERE s.id >= ?1 ORDER BY s.id LIMIT ?2";

const GREATEST: &str = "SELECT id FROM sessions ORDER BY id DESC LIMIT 1";

/// The numbers of columns of the two tables.
const SESSIONS_COLUMNS: usize = 13;

const DROPS_COLUMNS: usize = 2;

/// Makes the two tables where they aren't there. A table of another make is left as it is, and refused.
pub(crate) fn make_tables<S: Alter>(conn: &mut Connection<S>) -> Result<(), Error> {
    let has_sessions = has_table(
        conn,
        "SELECT * FROM sessions",
        PUT_SESSION,
        SESSIONS_COLUMNS,
    )?;
    let has_drops = has_table(conn, "SELECT * FROM drops", PUT_DROP, DROPS_COLUMNS)?;
    if !has_sessions {
        conn.execute(MAKE_SESSIONS, &[])?;
    }
    if !has_drops {
        conn.execute(MAKE_DROPS, &[])?;
    }
    Ok(())
}

/// Whether a table is there. One that has other columns, or that this insert doesn't fit, is refused.
fn has_table<S: Alter>(
    conn: &mut Connection<S>,
    select: &str,
    insert: &str,
    columns: usize,
) -> Result<bool, Error> {
    match conn.prepare(select) {
        Ok(all) => {
            let _insert = conn.prepare(insert)?;
            if all.column_count() == columns {
                Ok(true)
            } else {
                Err(Error::SqliteFailure(ErrorCode::NotADatabase))
            }
        }
        Err(Error::SqlInputError(CompileError::NoSuchTable)) => Ok(false),
        Err(error) => Err(error),
    }
}

/// Puts a note and its drop, together or not at all. Answers false where a note of its id is there.
pub(crate) fn put_note<S: Alter>(
    conn: &mut Connection<S>,
    entry: &SessionNote,
) -> Result<bool, Error>
    requires id { entry.now.id ≤ 2 ^ 63 - 1 }
    requires began { entry.now.began ≤ 2 ^ 63 - 1 }
    requires ended { entry.now.ended ≤ 2 ^ 63 - 1 }
{
    if !conn.is_autocommit() {
        return Err(Error::SqliteFailure(ErrorCode::TransactionState));
    }
    let mut both = conn.transaction();
    let is_fresh = put_session(&mut both, entry)?;
    if is_fresh && entry.dropped != 0 {
        put_drop(&mut both, entry)?;
    }
    both.commit()?;
    Ok(is_fresh)
}

fn put_session<S: Alter>(both: &mut Transaction<'_, S>, entry: &SessionNote) -> Result<bool, Error>
    requires id { entry.now.id ≤ 2 ^ 63 - 1 }
    requires began { entry.now.began ≤ 2 ^ 63 - 1 }
    requires ended { entry.now.ended ≤ 2 ^ 63 - 1 }
{
    let rows = both.query_all(
        PUT_SESSION,
        params![
            entry.id as i64,
            entry.side as i64,
            entry.dialect as i64,
            entry.began as i64,
            entry.ended as i64,
            entry.events as i64,
            entry.exchanges as i64,
            entry.masked as i64,
            entry.code as i64,
            entry.link as i64,
            entry.exchange as i64,
            entry.place as i64,
            entry.detail as i64
        ],
    )?;
    Ok(!rows.is_empty())
}

fn put_drop<S: Alter>(both: &mut Transaction<'_, S>, entry: &SessionNote) -> Result<(), Error>
    requires { entry.now.id ≤ 2 ^ 63 - 1 }
{
    let _count = both.execute(PUT_DROP, params![entry.id as i64, entry.dropped as i64])?;
    Ok(())
}

pub(crate) fn find_note<S: Alter>(
    conn: &mut Connection<S>,
    id: u64,
) -> Result<Option<SessionNote>, Error> {
    if id > i64::MAX as u64 {
        return Ok(None);
    }
    let rows = rows_of(conn, ONE, params![id as i64])?;
    match rows.first() {
        Some(row) => Ok(Some(note_of(row)?)),
        None => Ok(None),
    }
}

pub(crate) fn list_notes<S: Alter>(
    alloc: Global,
    conn: &mut Connection<S>,
    from: u64,
    count: u16,
) -> Result<Notes, Error> {
    let mut notes = Notes::new(alloc);
    if from > i64::MAX as u64 {
        return Ok(notes);
    }
    let rows = rows_of(conn, PAGE, params![from as i64, count as i64])?;
    for row in &rows {
        if let Err(NoMemory) = notes.push(note_of(row)?) {
            return Err(Error::SqliteFailure(ErrorCode::OutOfMemory));
        }
    }
    Ok(notes)
}

pub(crate) fn greatest_id<S: Alter>(conn: &mut Connection<S>) -> Result<Option<u64>, Error> {
    let rows = rows_of(conn, GREATEST, &[])?;
    match rows.first() {
        Some(row) => Ok(Some(moment_at(row, 0)?)),
        None => Ok(None),
    }
}

fn note_of(row: &Row) -> Result<SessionNote, Error> {
    Ok(SessionNote {
        id: moment_at(row, 0)?,
        side: byte_at(row, 1)?,
        dialect: byte_at(row, 2)?,
        began: moment_at(row, 3)?,
        ended: moment_at(row, 4)?,
        events: number_at(row, 5)?,
        exchanges: number_at(row, 6)?,
        masked: number_at(row, 7)?,
        code: byte_at(row, 8)?,
        link: byte_at(row, 9)?,
        exchange: number_at(row, 10)?,
        place: number_at(row, 11)?,
        detail: number_at(row, 12)?,
        dropped: byte_at(row, 13)?,
    })
}

// A call of the library's own has clauses that no caller here needs. These have none, so that a proof stays short.

fn moment_at(row: &Row, at: usize) -> Result<u64, Error> {
    row.get(at)
}

fn number_at(row: &Row, at: usize) -> Result<u32, Error> {
    row.get(at)
}

fn byte_at(row: &Row, at: usize) -> Result<u8, Error> {
    let wide = number_at(row, at)?;
    if wide > 255 {
        return Err(Error::IntegralValueOutOfRange(at));
    }
    Ok(wide as u8)
}

fn rows_of<S: Alter>(
    conn: &mut Connection<S>,
    select: &str,
    values: &[ValueRef<'_>],
) -> Result<Vec<Row>, Error> {
    conn.query_all(select, values)
}
