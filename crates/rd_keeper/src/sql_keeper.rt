ghost use Rattle.std.specs.Prelude.{◌≡◌, ◌≢◌, ◌≤◌, ◌-◌, ◌^◌, true, find, take, IfOk};
ghost use Rattle.rd_base.specs.Outside.{Rose};
ghost use Rattle.rd_keeper.specs.Keeping.{KeeperTold, Answers, FailsRefused, HasCause, Puts, sql_tells};
ghost use Rattle.rd_keeper.specs.Notes.{has_id, notes_from, greatest_id};
ghost use Rattle.rd_keeper.specs.Stores.{FailsStore, is_refused};

use crate::keeper::{KeepFail, Keeper, Put};
use crate::notes::Notes;
use crate::table::{find_note, greatest_id, list_notes, make_tables, put_note};
use rd_base::{NoMemory, SessionNote};
use sqlite::{Connection, Error, ErrorCode, File, FileStore, MemStore};
use std::alloc::Global;
use std::marker::Model;
use std::rt::HostRuntime;

/// Where the tables are.
#[derive(Drop)]
enum Store {
    File(Connection<FileStore<File>>),
    Memory(Connection<MemStore>),
    /// The file couldn't be opened, or isn't a store of notes. It is left as it was.
    Refused,
}

/// A keeper in a database: a table `sessions` with a column for each field of a note but `dropped`, and a table
/// `drops` with the dropped copy of each note that has one. No wait is in it: another process that holds the file
/// as it is opened makes it a store that can't be opened, and none can hold it from then on.
#[derive(Drop)]
pub struct SqlKeeper {
    store: Store,
    alloc: Global,
    faults: u64,
}

impl Model for SqlKeeper {
    ghost use Rattle.rd_keeper.specs.Keeping.{SqlKeeperView};
    ghost use Rattle.rd_keeper.specs.Stores.{is_refused};

    ghost Value = { SqlKeeperView };

    ghost view = { λ k. record { is_refused = is_refused k.store; faults = k.faults } };
}

impl SqlKeeper {
    /// Opens the file, or makes it. Where it can't be opened, or is of another make, every call of the keeper
    /// fails, and the file is left as it was.
    pub fn open(rt: &HostRuntime, alloc: Global, name: &str) -> Result<SqlKeeper, NoMemory>
        ensures { IfOk result (λ keeper. keeper.faults ≡ 0) }
    {
        let store = match open_file(rt, name) {
            Ok(conn) => Store::File(conn),
            Err(error) => refused_by(error)?,
        };
        Ok(SqlKeeper {
            store,
            alloc,
            faults: 0,
        })
    }

    /// A store in memory, for tests.
    pub fn in_memory(alloc: Global) -> Result<SqlKeeper, NoMemory>
        ensures { IfOk result (λ keeper. keeper.faults ≡ 0) }
    {
        let store = match open_memory(alloc) {
            Ok(conn) => Store::Memory(conn),
            Err(error) => refused_by(error)?,
        };
        Ok(SqlKeeper {
            store,
            alloc,
            faults: 0,
        })
    }

    /// Whether the store couldn't be opened, or is of another make: every call fails then.
    pub fn is_refused(&self) -> bool
        ensures { result ≡ self.now.is_refused }
    {
        self.store.is_refused()
    }

    /// The number of calls that failed.
    pub fn faults(&self) -> u64
        ensures { result ≡ self.now.faults }
    {
        self.faults
    }
}

impl Keeper for SqlKeeper {
    ghost tells = { sql_tells };

    fn put(&mut self, entry: &SessionNote) -> Result<Put, KeepFail>
        requires id { entry.now.id ≤ 2 ^ 63 - 1 }
        requires began { entry.now.began ≤ 2 ^ 63 - 1 }
        requires ended { entry.now.ended ≤ 2 ^ 63 - 1 }
        ensures notes { Puts entry.now result (sql_tells self.old) (sql_tells self.new) }
        ensures cause { HasCause result (sql_tells self.old) (sql_tells self.new) }
        ensures refused { FailsRefused result self.old self.new }
    {
        match self.store.put(entry) {
            Ok(true) => Ok(Put::Fresh),
            Ok(false) => Ok(Put::Repeat),
            Err(error) => Err(count_fault(&mut self.faults, error)),
        }
    }

    fn one(&mut self, id: u64) -> Result<Option<SessionNote>, KeepFail>
        ensures found { Answers result (find (has_id id)) (sql_tells self.old) }
        ensures notes { (sql_tells self.new).notes ≡ (sql_tells self.old).notes }
        ensures cause { HasCause result (sql_tells self.old) (sql_tells self.new) }
        ensures refused { FailsRefused result self.old self.new }
    {
        match self.store.one(id) {
            Ok(note) => Ok(note),
            Err(error) => Err(count_fault(&mut self.faults, error)),
        }
    }

    fn page(&mut self, from: u64, count: u16) -> Result<Notes, KeepFail>
        ensures found { Answers result (λ notes. take count (notes_from from notes))
            (sql_tells self.old) }
        ensures notes { (sql_tells self.new).notes ≡ (sql_tells self.old).notes }
        ensures cause { HasCause result (sql_tells self.old) (sql_tells self.new) }
        ensures refused { FailsRefused result self.old self.new }
    {
        match self.store.page(self.alloc, from, count) {
            Ok(notes) => Ok(notes),
            Err(error) => Err(count_fault(&mut self.faults, error)),
        }
    }

    fn greatest(&mut self) -> Result<Option<u64>, KeepFail>
        ensures found { Answers result greatest_id (sql_tells self.old) }
        ensures notes { (sql_tells self.new).notes ≡ (sql_tells self.old).notes }
        ensures cause { HasCause result (sql_tells self.old) (sql_tells self.new) }
        ensures refused { FailsRefused result self.old self.new }
    {
        match self.store.greatest() {
            Ok(id) => Ok(id),
            Err(error) => Err(count_fault(&mut self.faults, error)),
        }
    }
}

impl Store {
    fn is_refused(&self) -> bool
        ensures { result ≡ is_refused self.now }
    {
        match self {
            Store::File(_) => false,
            Store::Memory(_) => false,
            Store::Refused => true,
        }
    }

    /// Answers false where a note of its id is there.
    fn put(&mut self, entry: &SessionNote) -> Result<bool, Error>
        requires id { entry.now.id ≤ 2 ^ 63 - 1 }
        requires began { entry.now.began ≤ 2 ^ 63 - 1 }
        requires ended { entry.now.ended ≤ 2 ^ 63 - 1 }
        ensures { FailsStore result self.old self.new }
    {
        match self {
            Store::File(conn) => put_note(conn, entry),
            Store::Memory(conn) => put_note(conn, entry),
            Store::Refused => Err(NOT_A_STORE),
        }
    }

    fn one(&mut self, id: u64) -> Result<Option<SessionNote>, Error>
        ensures { FailsStore result self.old self.new }
    {
        match self {
            Store::File(conn) => find_note(conn, id),
            Store::Memory(conn) => find_note(conn, id),
            Store::Refused => Err(NOT_A_STORE),
        }
    }

    fn page(&mut self, alloc: Global, from: u64, count: u16) -> Result<Notes, Error>
        ensures { FailsStore result self.old self.new }
    {
        match self {
            Store::File(conn) => list_notes(alloc, conn, from, count),
            Store::Memory(conn) => list_notes(alloc, conn, from, count),
            Store::Refused => Err(NOT_A_STORE),
        }
    }

    fn greatest(&mut self) -> Result<Option<u64>, Error>
        ensures { FailsStore result self.old self.new }
    {
        match self {
            Store::File(conn) => greatest_id(conn),
            Store::Memory(conn) => greatest_id(conn),
            Store::Refused => Err(NOT_A_STORE),
        }
    }
}

const NOT_A_STORE: Error = Error::SqliteFailure(ErrorCode::NotADatabase);

fn open_file(rt: &HostRuntime, name: &str) -> Result<Connection<FileStore<File>>, Error> {
    let mut conn = Connection::open(rt, name)?;
    make_tables(&mut conn)?;
    Ok(conn)
}

fn open_memory(alloc: Global) -> Result<Connection<MemStore>, Error> {
    let mut conn = Connection::open_in_memory(alloc)?;
    make_tables(&mut conn)?;
    Ok(conn)
}

fn refused_by(error: Error) -> Result<Store, NoMemory> {
    match error {
        Error::SqliteFailure(ErrorCode::OutOfMemory) => Err(NoMemory),
        _ => Ok(Store::Refused),
    }
}

/// What a call answers that met this error; its count rises but where memory ran out.
fn count_fault(faults: &mut u64, error: Error) -> KeepFail
    ensures failed { result ≡ KeepFail.Failed → Rose faults.old faults.new }
    ensures memory { error ≢ Error.SqliteFailure ErrorCode.OutOfMemory
        → result ≡ KeepFail.Failed }
    ensures faults { faults.old ≤ faults.new }
{
    match error {
        Error::SqliteFailure(ErrorCode::OutOfMemory) => KeepFail::NoMemory,
        _ => {
            *faults = faults.saturating_add(1);
            KeepFail::Failed
        }
    }
}
